// The traits of what lies outside, and the gate that does nothing.
ghost use Rattle.std.specs.Prelude.{◌≡◌, List, ℕ, Bool, false, Option, IsTrue, OnOk, OnErr};
ghost use Rattle.std.specs.Io.{ReadsAtMost};
ghost use Rattle.std.specs.Io.KnownBytes.{ReadConsumes};
ghost use Rattle.rpt_outside.specs.Causes.{Rose, NeverFalls, Puts};

/// A call on the outside failed.
#[derive(Clone, Copy, Debug, PartialEq, Eq)]
pub struct Failed;

/// Files that are read one at a time, by their names.
///
/// Contracts see five things. `is_missing` says which names have no file, where that is known. `contents` is the bytes of
/// the file of each name. `is_started` says whether a name is that of the started file: it is a test, since a real folder
/// can't tell its names apart. `left` is what is still to be read of the started file. `faults` counts the failed calls for
/// each name; it never falls, and stands still at 2^64 - 1.
///
/// `contents` and `left` may be `None`: then nothing is told of the bytes, as of those of a real folder, which doesn't tell
/// what is missing either. Nothing is
/// promised of another name's count but that it doesn't fall, so a fault at one name shows none at another.
pub trait Files {
    ghost is_missing: { Self → List ℕ → Bool };

    ghost contents: { Self → List ℕ → Option (List ℕ) };

    ghost is_started: { Self → List ℕ → Bool };

    ghost left: { Self → Option (List ℕ) };

    ghost faults: { Self → List ℕ → ℕ };

    /// Starts the file of that name at its first byte.
    ///
    /// A file that is missing is never started. `Failed` comes only where the count of that name rose, as where there is no
    /// such file. Then no file is started.
    fn start_file(&mut self, name: &[u8]) -> Result<(), Failed>
        ensures started { OnOk result (IsTrue (is_started self.new name.now)) }
        ensures there { OnOk result (is_missing self.old name.now ≡ false) }
        ensures whole { OnOk result (left self.new ≡ contents self.old name.now) }

        ensures none { OnErr result ((n : List ℕ) → is_started self.new n ≡ false) }
        ensures failed { OnErr result (Rose (faults self.old name.now) (faults self.new name.now)) }

        ensures missing { is_missing self.new ≡ is_missing self.old }
        ensures contents { contents self.new ≡ contents self.old }
        ensures later { NeverFalls (faults self.old) (faults self.new) };

    /// Moves the next bytes of the started file to the front of `into`, and gives their number.
    ///
    /// It is 0 only where `into` is empty, nothing is left or no file is started. `Failed` comes only where the count of
    /// each name that is the started one rose, and leaves what is left as it was.
    fn read(&mut self, into: &mut [u8]) -> Result<usize, Failed>
        ensures bound { ReadsAtMost result into.new }
        ensures bytes { ReadConsumes (left self.old) (left self.new) result into.new }

        ensures unread { OnErr result (left self.new ≡ left self.old) }
        ensures failed { OnErr result ((n : List ℕ) → IsTrue (is_started self.old n)
            → Rose (faults self.old n) (faults self.new n)) }

        ensures started { is_started self.new ≡ is_started self.old }
        ensures missing { is_missing self.new ≡ is_missing self.old }
        ensures contents { contents self.new ≡ contents self.old }
        ensures later { NeverFalls (faults self.old) (faults self.new) };
}

/// What takes bytes.
///
/// Contracts see two things. `taken` is all bytes that were taken, or `None` where that isn't told, as of a real stream.
/// `faults` counts the failed puts; it never falls, and stands still at 2^64 - 1.
pub trait Sink {
    ghost taken: { Self → Option (List ℕ) };

    ghost faults: { Self → ℕ };

    /// Takes the whole piece. On `Failed` a prefix of the piece was taken, and the count of faults rose.
    fn put(&mut self, piece: &[u8]) -> Result<(), Failed>
        ensures { Puts (taken self.old) (taken self.new) (faults self.old) (faults self.new) piece.now result };
}

/// What a worker passes as a round begins. It promises nothing, and returns.
pub trait Gate {
    fn pass(&self, round: u32, worker: u32);
}

/// A gate that does nothing.
#[derive(Clone, Copy)]
pub struct OpenGate;

impl Gate for OpenGate {
    fn pass(&self, _round: u32, _worker: u32) {}
}
