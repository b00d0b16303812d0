// From bytes to a record: a tag byte, a two-byte length with its high byte first, and content of that length.
ghost use Rattle.std.specs.Prelude.{◌≡◌};
ghost use Rattle.tagged_file.specs.Decoded.{decoded, seen};

use crate::number::number16;
use crate::record::{HEADER, Record, Tag};
use fault::Fault;
use fault::cause::Cause;

// The record at the front of `bytes`, which stand at `offset` in the file, and how many bytes it occupies.
pub fn decode<'a>(bytes: &'a [u8], offset: u64) -> Result<(Record<'a>, usize), Fault>
    ensures { seen result ≡ decoded offset bytes.now }
{
    if bytes.len() < HEADER {
        return Err(Cause::HeaderCutOff.at(offset));
    }
    let Ok(tag) = Tag::try_from(bytes[0]) else {
        return Err(Cause::TagUnknown.at(offset));
    };
    let length = usize::from(number16(bytes, 1));
    if !tag.takes(length) {
        return Err(Cause::LengthWrong.at(offset));
    }
    let size = HEADER + length;
    if bytes.len() < size {
        return Err(Cause::ContentCutOff.at(offset));
    }
    Ok((Record::new(tag, &bytes[HEADER..size]), size))
}
