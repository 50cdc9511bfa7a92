// The data of a reply, as a part of the buffer that holds it.
#![tactic(auto)]

ghost use Rattle.std.specs.Prelude.{◌≡◌};
ghost use Rattle.replies.specs.Data.{holds_data, ShowsData};

use telegram::LONGEST;

// Whether a buffer holds LEN and the data behind it: not where there is no LEN, where it is over 16,
// and where the data would pass the end.
#[tactic(auto, unfolding(crate::specs::Data::holds_data))]
pub fn holds_data(buffer: &[u8]) -> bool
    ensures { result ≡ holds_data buffer.now }
{
    let size = lists::byte_at(buffer, 0) as usize;
    !buffer.is_empty() && size <= LONGEST && 1 + size <= buffer.len()
}

// The data of the reply attempt asked for, a part of its buffer. The buffers are those that the
// judge filled. Without such data, and for an attempt other than 1 and 2, it is the empty start of
// the first.
pub fn reply_data<'a>(first: &'a [u8], second: &'a [u8], attempt: u8) -> &'a [u8]
    ensures { ShowsData first.now second.now first.entry.ref_ptr second.entry.ref_ptr attempt result.ref_ptr result.now }
{
    if attempt == 1 {
        if holds_data(first) {
            let end = first[0] as usize + 1;
            return &first[1..end];
        }
        return &first[..0];
    }
    if attempt == 2 {
        if holds_data(second) {
            let end = second[0] as usize + 1;
            return &second[1..end];
        }
        return &first[..0];
    }
    &first[..0]
}
