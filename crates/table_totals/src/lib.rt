// Totals over every small table of a size: how many tables there are, how many have a best cycle at the bound, the largest average latency and the
// first number that has it. They do not depend on which of several best cycles a search finds (`OneTotals`, crate total_claims).
// Every function here is proved, and the public one is total and without a `requires`; the crate assumes nothing of its own.
#![tactic(auto)]

ghost use Rattle.std.specs.Prelude.{◌≡◌, cond, ◌*◌, ◌<◌, eqb, length};
ghost use Rattle.unit.specs.Unit.{marked};
ghost use Rattle.unit.specs.Calls.{tag_answer};
ghost use Rattle.collision.specs.Vector.{bound_of};
ghost use Rattle.table_numbers.specs.Tables.{all_tables};
ghost use Rattle.table_totals.specs.Totals.{TotalsPromise};
ghost use Rattle.table_totals.specs.Inner.{Prepared, Used, Fitting, Measured, Tallied, Addable, Added, Reduced, TotalsFound};

use unit::{FunctionUnit, Refusal, Tag};

// The number of tables of a size, how many of them have a best cycle with S = bound × K, the largest S / K as a fraction in lowest terms, and the
// first number that has it.
#[derive(Clone, Copy)]
pub struct SizeTotals {
    pub tables: u32,
    pub reaching: u32,
    pub numerator: u32,
    pub denominator: u32,
    pub first: u32,
}

// S and K of a table's best cycle, and 1 where S = bound × K.
#[derive(Clone, Copy)]
struct Average {
    sum: u32,
    count: u32,
    reaching: u32,
}

// Of the tables so far: how many are at the bound, and S and K of the largest average with the first number that has it.
#[derive(Clone, Copy)]
struct Tally {
    reaching: u32,
    sum: u32,
    count: u32,
    first: u32,
}

#[derive(Clone, Copy)]
struct Fraction {
    numerator: u32,
    denominator: u32,
}

// The bound of a unit's function 1.
fn bound_of(u: FunctionUnit) -> u32
    requires { tag_answer u 1 ≡ Ok tt }
    ensures { result ≡ bound_of (marked u) 1 }
{
    let found = measures::bound(u, Tag(1));
    match found {
        Err(_) => 0,
        Ok(bound) => bound,
    }
}

// 1 where S = bound × K, else 0.
fn reaches(bound: u32, count: u16, sum: u16) -> u32
    ensures { result ≡ cond (eqb sum (bound * count)) 1 0 }
{
    if sum as u64 == bound as u64 * count as u64 {
        return 1;
    }
    0
}

// Searches the table of a number.
fn measure(segments: u8, columns: u8, number: u32, tables: u32, work: &mut [u32]) -> Average
    requires { Prepared segments columns tables (length work.old) × (number < tables) }
    ensures { Measured (all_tables segments columns) number work.old work.new result }
{
    let made = table_numbers::table(segments, columns, number);
    let table = made.unit;
    let searched = planner::search(table, Tag(1), work);
    let found = searched.unit;
    let plan = found.plan;
    let bound = bound_of(table);
    let reaching = reaches(bound, plan.count, plan.sum);
    Average {
        sum: plan.sum as u32,
        count: plan.count as u32,
        reaching,
    }
}

// The table of another number, beside those so far.
fn add_table(t: Tally, a: Average, number: u32) -> Tally
    requires { Addable t a }
    ensures { Added t a number result }
{
    if t.sum * a.count < a.sum * t.count {
        return Tally {
            reaching: t.reaching + a.reaching,
            sum: a.sum,
            count: a.count,
            first: number,
        };
    }
    Tally {
        reaching: t.reaching + a.reaching,
        sum: t.sum,
        count: t.count,
        first: t.first,
    }
}

// Searches every table of a size, from number 0 to the last.
fn tally_all(segments: u8, columns: u8, tables: u32, work: &mut [u32]) -> Tally
    requires { Prepared segments columns tables (length work.old) }
    ensures tallied { Tallied (all_tables segments columns) tables result }
    ensures used { Used work.old work.new }
{
    let zero = measure(segments, columns, 0, tables, work);
    let mut tally = Tally {
        reaching: zero.reaching,
        sum: zero.sum,
        count: zero.count,
        first: 0,
    };
    for number in 1..tables {
        let next = measure(segments, columns, number, tables, work);
        let added = add_table(tally, next, number);
        tally = added;
    }
    tally
}

// S / K in lowest terms: the least denominator of which S / K is a whole number of parts.
fn reduce(sum: u32, count: u32) -> Fraction
    requires { Fitting sum count }
    ensures { Reduced sum count result.numerator result.denominator }
{
    let mut denominator: u32 = 1;
    // A while: it ends at the denominator that is looked for, and no bound is counted up to.
    while (sum * denominator) % count != 0 {
        denominator += 1;
    }
    Fraction {
        numerator: sum * denominator / count,
        denominator,
    }
}

// The totals of a size.
fn totals_of(segments: u8, columns: u8, tables: u32, work: &mut [u32]) -> SizeTotals
    requires { Prepared segments columns tables (length work.old) }
    ensures { TotalsFound segments columns work.old work.new result }
{
    let tally = tally_all(segments, columns, tables, work);
    let largest = reduce(tally.sum, tally.count);
    SizeTotals {
        tables,
        reaching: tally.reaching,
        numerator: largest.numerator,
        denominator: largest.denominator,
        first: tally.first,
    }
}

// Finds the totals of a size in lent working words, as a search does.
pub fn totals(segments: u8, columns: u8, work: &mut [u32]) -> Result<SizeTotals, Refusal>
    ensures { TotalsPromise segments columns work.old work.new result }
{
    let tables = table_numbers::count(segments, columns);
    if tables == 0 {
        return Err(Refusal::NoSmallTable);
    }
    if work.len() < 16000 {
        return Err(Refusal::ShortWork);
    }
    Ok(totals_of(segments, columns, tables, work))
}
