// What holds of numbers by first appearance.
ghost use Rattle.std.specs.Prelude.{List};
ghost use Rattle.rpt_base.specs.declared.values.Value.{Value};
ghost use Rattle.key_codes.specs.Codes.{AreToldApart};

/// Two keys of a list have one number exactly where they are equal.
pub fn codes_tell_keys_apart()
    ensures { (keys : List (List Value)) → AreToldApart keys }
{}
