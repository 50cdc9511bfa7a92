// The eBUS check byte from a table, one byte a step, and from a second table two bytes a step.
//
// A constant array has no storage of its own: each function that takes a table builds it on its
// stack. So a loop takes it once, who checks several telegrams takes it once for all of them, and the
// second table is taken where it pays for itself. A step waits for the one before it, which is what the
// check's time goes into: with two bytes a step there are half as many.
#![tactic(auto)]

mod table;
mod tables;

ghost use Rattle.std.specs.Prelude.{◌≡◌, true, List, ◌++◌, ℕ, ◌+◌, ◌-◌, ◌≤◌, ◌<◌, take};
ghost use Rattle.escapes.specs.Escape.{escaped};
ghost use Rattle.checkbyte.specs.Check.{ebus_bytes, ebus_check};
ghost use Rattle.checkbyte.specs.BitByBit.{EbusTable, EbusTables, check_by};
ghost use Rattle.checkbyte.specs.Inner.{PlainAt};

use escapes::{ESC, SYN};
use table::EBUS_TABLE;
use tables::EBUS_TABLES;

// The table: at every entry, eight steps of the bit-by-bit rule.
fn ebus_table() -> [u8; 256]
    ensures { EbusTable result }
{
    EBUS_TABLE
}

// The same table and behind it that of two bytes a step: at every entry, sixteen steps of the
// bit-by-bit rule.
pub fn ebus_tables() -> [u8; 512]
    ensures { EbusTables result }
{
    EBUS_TABLES
}

// From so many bytes on two bytes a step are faster, the second table included.
const PAIRS_FROM: usize = 12;

// A bit above the register's eight. With it the running value is no byte that would have to be
// widened before each look at the table.
const ABOVE: usize = 0x100;

// The eBUS check byte of logical bytes: A9 counts as A9 00 and AA as A9 01.
pub fn ebus_check(logical: &[u8]) -> u8
    ensures { result ≡ ebus_check logical.now }
{
    if logical.len() < PAIRS_FROM {
        let table = ebus_table();
        return check_by(&table, false, logical);
    }
    let tables = ebus_tables();
    check_by(&tables, true, logical)
}

// The running value once a byte has entered, escaped, by the table that the first 256 entries are.
fn entered(table: &[u8], running: usize, byte: u8) -> usize
    requires { EbusTable (take 256 table.now) × (256 ≤ running) × (running < 512) }
    ensures { (256 ≤ result) × (result < 512) × ((rest : List ℕ) → ebus_bytes (running - 256) (escaped byte ++ rest) ≡ ebus_bytes (result - 256) rest) }
{
    let at = running - ABOVE;
    match byte {
        ESC | SYN => {
            let second = (table[at] ^ ESC) as usize;
            (table[second] as usize) ^ (ABOVE + (byte - ESC) as usize)
        }
        _ => (table[at] as usize) ^ (ABOVE + byte as usize),
    }
}

// Whether a byte stands at this place that goes out as it is.
fn plain_at(logical: &[u8], i: usize) -> bool
    ensures { result ≡ true → PlainAt logical.now i }
{
    i < logical.len() && logical[i] != ESC && logical[i] != SYN
}

// Whether two such bytes stand there.
fn pair_at(logical: &[u8], i: usize) -> bool
    ensures { result ≡ true → PlainAt logical.now i × PlainAt logical.now (i + 1) }
{
    plain_at(logical, i) && plain_at(logical, i + 1)
}

// The check by the table, one byte a step; with `pairs` by both tables, two bytes a step where neither
// is escaped. So a step is of one byte or of two, and the loop no count.
fn check_by(table: &[u8], pairs: bool, logical: &[u8]) -> u8
    requires { EbusTable (take 256 table.now) × (pairs ≡ true → EbusTables table.now) }
    ensures { result ≡ ebus_check logical.now }
{
    let mut running = ABOVE;
    let mut i = 0;
    while i < logical.len() {
        if pairs && pair_at(logical, i) {
            let both = table[logical[i] as usize] ^ logical[i + 1];
            running = (table[running] as usize) ^ (ABOVE + both as usize);
            i += 2;
            continue;
        }
        running = entered(table, running, logical[i]);
        i += 1;
    }
    (running - ABOVE) as u8
}

// The check of raw bytes, in which escapes are expanded already, two bytes a step by lent tables: by
// those of `ebus_tables` it is the eBUS check. They are looked at as a slice, whose elements are known
// to be bytes.
pub fn wire_check(tables: &[u8; 512], raw: &[u8]) -> u8
    ensures { result ≡ check_by tables.now raw.now }
{
    let entries = &tables[..];
    let mut running: usize = 0x100;
    let mut left = raw;
    while let [first, second, rest @ ..] = left {
        let both = entries[*first as usize] ^ *second;
        running = (entries[running] as usize) ^ (ABOVE + both as usize);
        left = rest;
    }
    let register = (running - ABOVE) as u8;
    match left {
        [byte] => entries[register as usize] ^ *byte,
        _ => register,
    }
}
