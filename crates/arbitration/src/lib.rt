// The contest on the bus: devices put the bits of their keys on it, highest first, and the smallest
// key remains.
//
// Rule D3. Keys are plain numbers here, and the number of windows is
// the caller's. Those still in the contest are the keys whose high bits are the ones that the
// windows so far gave, so the recursion carries those bits and no set.
#![tactic(auto)]

ghost use Rattle.std.specs.Prelude.{◌≡◌, true, [], ◌∷◌, ◌+◌, ◌*◌, ◌^◌, ◌≤◌, ◌<◌, length};
ghost use Rattle.std.specs.List.{count_by};
ghost use Rattle.lists.specs.Tests.{any, how_many};
ghost use Rattle.arbitration.specs.Contest.{dominant_windows, fits, decided};
ghost use Rattle.arbitration.specs.Prefix.{starts, first_with, decided_within};

// The bits of a key.
const KEY_BITS: u32 = 32;

// Keys are counted by parts of this many, so that a count fits a key's own width.
const PART: usize = 65536;

// What a contest decides: where in the list of keys the winner's stands first, that key, and how
// many windows were dominant.
#[derive(Clone, Copy)]
pub struct Decided {
    pub place: usize,
    pub key: u32,
    pub dominant: usize,
}

// How many keys of a part have these bits above the windows still to come. The loop has no way out
// before its end and nothing in it is wider than a key, so that a processor takes several keys at a
// time.
fn count_part(keys: &[u32], windows: u32, prefix: u32) -> u32
    requires { (windows < 32) × (length keys.now ≤ 65536) }
    ensures { result ≡ count_by (starts windows prefix) keys.now }
{
    let mut count: u32 = 0;
    for key in keys {
        if *key >> windows == prefix {
            count += 1;
        }
    }
    count
}

// How many of all keys have them, counted by parts.
fn how_many(keys: &[u32], windows: u32, prefix: u32) -> usize
    requires { windows < 32 }
    ensures { result ≡ how_many (starts windows prefix) keys.now }
{
    let mut count: usize = 0;
    for part in keys.chunks(PART) {
        count += count_part(part, windows, prefix) as usize;
    }
    count
}

// Whether any key contends over so many windows.
fn some_fits(keys: &[u32], windows: u32) -> bool
    ensures { result ≡ any (fits windows) keys.now }
{
    if windows >= KEY_BITS {
        return !keys.is_empty();
    }
    how_many(keys, windows, 0) > 0
}

// Where a key with these bits stands first; the length of the list where there is none.
fn first_with(keys: &[u32], windows: u32, prefix: u32) -> usize
    requires { windows < 32 }
    ensures { result ≡ first_with (starts windows prefix) keys.now }
{
    keys.iter()
        .position(|key| *key >> windows == prefix)
        .unwrap_or(keys.len())
}

// How many windows are dominant, these and those still to come, where one key is left: each window
// is one call.
fn one_left(key: u32, windows: u32, dominant: usize) -> usize
    requires { (windows < 32) × (dominant + windows ≤ 2 ^ 32) }
    ensures { result ≡ dominant + dominant_windows windows (key ∷ []) }
{
    if windows > 0 {
        let next = windows - 1;
        if (key >> next) % 2 == 0 {
            return one_left(key, next, dominant + 1);
        }
        return one_left(key, next, dominant);
    }
    dominant
}

// The contest over the windows still to come, of the one key that starts with the prefix.
fn alone(keys: &[u32], windows: u32, prefix: u32, dominant: usize) -> Decided
    requires { (windows < 32) × (dominant + windows ≤ 2 ^ 32) × (how_many (starts windows prefix) keys.now ≡ 1) }
    ensures { result ≡ decided_within windows prefix dominant keys.now }
{
    let place = first_with(keys, windows, prefix);
    let key = keys[place];
    Decided {
        place,
        key,
        dominant: one_left(key, windows, dominant),
    }
}

// The contest over the windows still to come, of the keys that start with the prefix: there is one.
// Each window is one call, so the windows fall to 0, and then the prefix is the key that remains.
// Where a window leaves one key, no other is looked at any more.
fn over_windows(keys: &[u32], windows: u32, prefix: u32, dominant: usize) -> Decided
    requires { (windows ≤ 32) × ((prefix + 1) * 2 ^ windows ≤ 2 ^ 32) × (dominant + windows ≤ 2 ^ 32) × (any (starts windows prefix) keys.now ≡ true) }
    ensures { result ≡ decided_within windows prefix dominant keys.now }
{
    if windows == 0 {
        return Decided {
            place: first_with(keys, windows, prefix),
            key: prefix,
            dominant,
        };
    }
    let next = windows - 1;
    let zero = prefix * 2;
    let zeros = how_many(keys, next, zero);
    if zeros == 0 {
        return over_windows(keys, next, zero + 1, dominant);
    }
    if zeros == 1 {
        return alone(keys, next, zero, dominant + 1);
    }
    over_windows(keys, next, zero, dominant + 1)
}

// The contest of the keys over any number of windows. A key that does not fit them, 2^windows or
// more, does not contend; with 32 windows every key does. Where nobody contends, the place is the
// number of keys, the key 0, and no window is dominant.
pub fn contest(keys: &[u32], windows: u32) -> Decided
    ensures { result ≡ decided windows keys.now }
{
    if !some_fits(keys, windows) {
        return Decided {
            place: keys.len(),
            key: 0,
            dominant: 0,
        };
    }
    // Above its 32 bits every key has a 0: those windows are dominant, and nobody drops out.
    if windows > KEY_BITS {
        return over_windows(keys, KEY_BITS, 0, (windows - KEY_BITS) as usize);
    }
    over_windows(keys, windows, 0, 0)
}
