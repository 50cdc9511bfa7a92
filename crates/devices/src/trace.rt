// The requests of a whole scan, under the caller's cap.
ghost use Rattle.std.specs.Prelude.{◌≡◌, true, ℕ, ◌≤◌, eqb, length, Ok};
ghost use Rattle.lists.specs.Choice.{pick};
ghost use Rattle.requests.specs.declared.Request.TheVariants.{Start, Continue};
ghost use mathlib.Mathlib.Logic.Function.Defs.{const};
ghost use Rattle.table.specs.Table.{columns, valid};
ghost use Rattle.devices.specs.WholeScan.{GivesScan, scan_from, concluded};

use crate::{Scanned, bus};
use requests::Request;
use turns::Answer;

// A start first, then continues.
fn request_after(sent: usize) -> Request
    ensures { result ≡ pick (eqb sent 0) Start Continue }
{
    if sent == 0 {
        return Request::Start;
    }
    Request::Continue
}

// Requests until end, silence or the cap. Every request before the last one found a device, so the
// number sent is also the number of entries heard. The FF of each answer are counted, also those
// before the end.
pub(crate) fn run(
    serials: &[u32],
    addresses: &[u8],
    marks: &mut [u8],
    found_serials: &mut [u32],
    found_addresses: &mut [u8],
    cap: usize,
) -> Scanned
    requires { (valid (columns serials.now addresses.now marks.old) ≡ true) × (length serials.now ≤ length found_serials.old) × (length serials.now ≤ length found_addresses.old) }
    ensures { GivesScan (const ℕ) (concluded found_serials.old found_addresses.old (columns serials.now addresses.now marks.old) (scan_from cap Start (columns serials.now addresses.now marks.old))) (Ok result) found_serials.new found_addresses.new (columns serials.now addresses.now marks.new) }
{
    let mut skipped = 0;
    for sent in 0..cap {
        let request = request_after(sent);
        let heard = bus::respond(request, serials, addresses, marks);
        match heard {
            Answer::Found {
                dominant,
                serial,
                address,
            } => {
                found_serials[sent] = serial;
                found_addresses[sent] = address;
                skipped += dominant;
            }
            Answer::End { dominant } => {
                let requests = sent + 1;
                return Scanned::Complete {
                    requests,
                    skipped: skipped + dominant,
                };
            }
            Answer::Silence => {
                return Scanned::Nobody {
                    requests: sent + 1,
                    skipped,
                };
            }
        }
    }
    Scanned::Unfinished {
        requests: cap,
        skipped,
    }
}
