// The numbers 1 to 3, in their order, by which a request is refused before the capture or the records are read.
#![tactic(auto)]

ghost use Rattle.std.specs.Prelude.{◌≡◌};
ghost use Rattle.call.specs.Call.{number_in};
ghost use Rattle.refusal.specs.Refusal.{page_refusal, write_refusal};

use call::{PageRequest, Refusal, WriteRequest};

// Of a request for a page, over a capture of so many bytes.
pub fn page(bytes: usize, r: PageRequest) -> Result<(), Refusal>
    ensures { number_in result ≡ page_refusal bytes r }
{
    if 1 < r.terms.direction || r.most == 0 {
        return Err(Refusal::NotARequest);
    }
    if 65536 < bytes || 8 * (bytes as u64) < r.n {
        return Err(Refusal::TooLong);
    }
    if r.n < r.cursor.position || 5 < r.cursor.context {
        return Err(Refusal::WrongCursor);
    }
    Ok(())
}

// Of a request to write so many bytes of records into so many of a buffer. (Of the tests of `page` only those of direction and context come again.)
pub fn write(records: usize, r: WriteRequest, buffer: usize) -> Result<(), Refusal>
    ensures { number_in result ≡ write_refusal records r buffer }
{
    if 1 < r.terms.direction || 65536 < records {
        return Err(Refusal::NotARequest);
    }
    if 65536 < buffer {
        return Err(Refusal::TooLong);
    }
    if 8 * (buffer as u64) < r.cursor.position || 5 < r.cursor.context {
        return Err(Refusal::WrongCursor);
    }
    Ok(())
}
