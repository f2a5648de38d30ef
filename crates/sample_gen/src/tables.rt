// The texts of the sample's tables.
ghost use Rattle.std.specs.Prelude.{◌≡◌, ◌<◌, ◌++◌, IfOk, OnOk, codes};
ghost use Rattle.std.specs.Fmt.{decimal};
ghost use Rattle.sample_gen.specs.Tables.{customers_text, item_row, items_text, line_end, nation_row, nations_text};
ghost use Rattle.sample_gen.specs.Tables.{orders_text, pair_row, rows_text};

use crate::draws::Draws;
use crate::pieces::{put, put_number};
use rpt_base::Memory;
use std::alloc::Global;

const NATIONS: u32 = 25;

const CUSTOMERS: u32 = 2_000;

const ORDERS: u32 = 20_000;

const ITEMS: u32 = 60_000;

// What draws are made modulo: there are fewer customers and fewer orders than these, so that some rows find none.
const CUSTOMER_BOUND: u32 = 2_500;

const ORDER_BOUND: u32 = 25_000;

const QUANTITY_BOUND: u32 = 50;

/// The nations, each with its number and its name.
pub(crate) fn nations(alloc: Global) -> Result<Vec<u8>, Memory>
    ensures { IfOk result (λ text. text.items ≡ nations_text) }
{
    let mut text = Vec::new(alloc);
    put(&mut text, b"id,name\n")?;
    put_nations(&mut text, NATIONS)?;
    Ok(text)
}

/// The customers, each with its number and that of its nation.
pub(crate) fn customers(alloc: Global, number: u32) -> Result<Vec<u8>, Memory>
    ensures { IfOk result (λ text. text.items ≡ customers_text number) }
{
    let mut text = Vec::new(alloc);
    put(&mut text, b"id,nation\n")?;
    put_pairs(&mut text, number, 0, NATIONS, CUSTOMERS)?;
    Ok(text)
}

/// The orders, each with its number and that of its customer.
pub(crate) fn orders(alloc: Global, number: u32) -> Result<Vec<u8>, Memory>
    ensures { IfOk result (λ text. text.items ≡ orders_text number) }
{
    let mut text = Vec::new(alloc);
    put(&mut text, b"id,customer\n")?;
    put_pairs(&mut text, number, CUSTOMERS, CUSTOMER_BOUND, ORDERS)?;
    Ok(text)
}

/// The items, each with its number, that of its order, and its quantity.
pub(crate) fn items(alloc: Global, number: u32) -> Result<Vec<u8>, Memory>
    ensures { IfOk result (λ text. text.items ≡ items_text number) }
{
    let mut text = Vec::new(alloc);
    put(&mut text, b"id,order_id,qty\n")?;
    put_items(&mut text, number, CUSTOMERS + ORDERS, ITEMS)?;
    Ok(text)
}

// The counts of rows are parameters, so that no goal computes with them.
fn put_nations(out: &mut Vec<u8>, count: u32) -> Result<(), Memory>
    ensures { OnOk result (out.new.items ≡ out.old.items ++ rows_text nation_row count) }
{
    for id in 0..count {
        put_nation(out, id)?;
    }
    Ok(())
}

fn put_nation(out: &mut Vec<u8>, id: u32) -> Result<(), Memory>
    ensures { OnOk result (out.new.items ≡ out.old.items ++ nation_row id) }
{
    put_number(out, id)?;
    put(out, b",nation_")?;
    put_number(out, id)?;
    put(out, b"\n")
}

// Rows of a number and a draw modulo a bound, from the draw after so many first ones on.
fn put_pairs(
    out: &mut Vec<u8>,
    number: u32,
    first: u32,
    bound: u32,
    count: u32,
) -> Result<(), Memory>
    requires { 0 < bound }
    ensures { OnOk result (out.new.items ≡ out.old.items
        ++ rows_text (pair_row number first bound) count) }
{
    let mut draws = Draws::after(number, first);
    for id in 0..count {
        let other = draws.below(bound);
        put_pair(out, id, other)?;
    }
    Ok(())
}

fn put_pair(out: &mut Vec<u8>, id: u32, other: u32) -> Result<(), Memory>
    ensures { OnOk result (out.new.items ≡ out.old.items
        ++ (decimal id ++ codes "," ++ decimal other ++ line_end)) }
{
    put_number(out, id)?;
    put(out, b",")?;
    put_number(out, other)?;
    put(out, b"\n")
}

// The same with two draws: that of the item's order, and that of its quantity.
fn put_items(out: &mut Vec<u8>, number: u32, first: u32, count: u32) -> Result<(), Memory>
    ensures { OnOk result (out.new.items ≡ out.old.items
        ++ rows_text (item_row number first) count) }
{
    let mut draws = Draws::after(number, first);
    for id in 0..count {
        let order = draws.below(ORDER_BOUND);
        let quantity = draws.below(QUANTITY_BOUND);
        put_item(out, id, order, quantity)?;
    }
    Ok(())
}

fn put_item(out: &mut Vec<u8>, id: u32, order: u32, quantity: u32) -> Result<(), Memory>
    ensures { OnOk result (out.new.items ≡ out.old.items
        ++ (decimal id ++ codes "," ++ decimal order ++ codes "," ++ decimal quantity ++ line_end)) }
{
    put_number(out, id)?;
    put(out, b",")?;
    put_number(out, order)?;
    put(out, b",")?;
    put_number(out, quantity)?;
    put(out, b"\n")
}
