// The sample's script, beside its tables.
ghost use Rattle.std.specs.Prelude.{◌≡◌, ◌≤◌, ◌++◌, ◌∷◌, [], IfOk, IsTrue, OnOk, length, map};
ghost use Rattle.std.specs.Str.{str_to_ascii_lowercase};
ghost use Rattle.rpt_base.specs.Names.{is_name};
ghost use Rattle.rpt_base.specs.declared.limits.TheConstants.{MAX_SCRIPT_BYTES};
ghost use Rattle.sample_gen.specs.Script.{sample_script};
ghost use Rattle.sample_gen.specs.Tables.{named_text, sample_tables};

use crate::parts::Sample;
use crate::tables::{customers, items, nations, orders};
use rpt_base::{Memory, Name};
use std::alloc::Global;

const SCRIPT: &[u8] = b"CREATE TABLE nations (id INT, name TEXT); \
    CREATE TABLE customers (id INT, nation INT); \
    CREATE TABLE orders (id INT, customer INT); \
    CREATE TABLE items (id INT, order_id INT, qty INT); \
    SELECT i.id, o.id, c.id, n.name FROM items i, orders o, customers c, nations n \
    WHERE i.order_id = o.id AND o.customer = c.id AND c.nation = n.id \
    AND n.name = 'nation_7' AND i.qty < 5";

/// The sample of a number: always the same script, and tables whose rows are made of draws from the number. Rows are numbered
/// from 0, and draws are made in the order of the tables:
///
/// ```text
/// nations      id,name            25 rows: i, and nation_i
/// customers    id,nation          2,000 rows: i, and a draw modulo 25
/// orders       id,customer        20,000 rows: i, and a draw modulo 2,500
/// items        id,order_id,qty    60,000 rows: i, a draw modulo 25,000, and the next one modulo 50
/// ```
///
/// So some orders have a customer that isn't there, and some items an order. Want of memory is the one error.
pub fn sample(alloc: Global, number: u32) -> Result<Sample, Memory>
    ensures script { IfOk result (λ sample. sample.script.items ≡ sample_script) }
    ensures short { IfOk result (λ sample. length sample.script.items ≤ MAX_SCRIPT_BYTES) }
    ensures tables { IfOk result (λ sample.
        map named_text sample.tables.items ≡ sample_tables number) }
{
    let mut tables = Vec::new(alloc);
    put_table(alloc, &mut tables, b"nations", nations(alloc)?)?;
    put_table(alloc, &mut tables, b"customers", customers(alloc, number)?)?;
    put_table(alloc, &mut tables, b"orders", orders(alloc, number)?)?;
    put_table(alloc, &mut tables, b"items", items(alloc, number)?)?;
    Ok(Sample {
        script: script(alloc)?,
        tables,
    })
}

// A table more, by its name in lower case.
fn put_table(
    alloc: Global,
    tables: &mut Vec<(Name, Vec<u8>)>,
    name: &[u8],
    text: Vec<u8>,
) -> Result<(), Memory>
    requires name { IsTrue (is_name name.now) }
    requires lower { str_to_ascii_lowercase name.now ≡ name.now }
    ensures { OnOk result (map named_text tables.new.items
        ≡ map named_text tables.old.items ++ (name.now, text.items) ∷ []) }
{
    let name = Name::make(alloc, name)?;
    tables.push((name, text))?;
    Ok(())
}

fn script(alloc: Global) -> Result<Vec<u8>, Memory>
    ensures script { IfOk result (λ script. script.items ≡ sample_script) }
    ensures short { IfOk result (λ script. length script.items ≤ MAX_SCRIPT_BYTES) }
{
    let script = Vec::from_slice(alloc, SCRIPT)?;
    Ok(script)
}
