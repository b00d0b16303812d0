// A record of the file: its tag, and the content that it has in the input.
ghost use Rattle.std.specs.Prelude.{◌≡◌};
ghost use Rattle.tagged_file.specs.Format.{tag_or_byte, right, tag_in, content_in, kept};

use thiserror::Error;

// The bytes of a record before its content: its tag, and the two of its length.
pub const HEADER: usize = 3;

// The most content that a remark has, in bytes.
pub const LONGEST_REMARK: usize = 1_024;

// What a record is, by its first byte.
#[derive(Clone, Copy, PartialEq, Debug)]
pub enum Tag {
    Year,
    Plant,
    Contract,
    Quarter,
    Remark,
    End,
}

// A first byte that stands for no tag.
#[derive(Clone, Copy, PartialEq, Debug, Error)]
#[error("no record begins with the byte {0}")]
pub struct UnknownTag(pub u8);

// Apart from its tag, which is known before the content is: the content is borrowed from the bytes that were decoded.
#[derive(Clone, Copy, Debug)]
pub enum Record<'a> {
    Year(&'a [u8]),
    Plant(&'a [u8]),
    Contract(&'a [u8]),
    Quarter(&'a [u8]),
    Remark(&'a [u8]),
    End,
}

impl TryFrom<u8> for Tag {
    type Error = UnknownTag;

    ghost try_from_gives = { λ byte r. r ≡ tag_or_byte byte };

    fn try_from(byte: u8) -> Result<Tag, UnknownTag> {
        match byte {
            1 => Ok(Tag::Year),
            2 => Ok(Tag::Plant),
            3 => Ok(Tag::Contract),
            4 => Ok(Tag::Quarter),
            5 => Ok(Tag::Remark),
            6 => Ok(Tag::End),
            _ => Err(UnknownTag(byte)),
        }
    }
}

impl Tag {
    // Whether so many bytes of content are right for this tag.
    pub fn takes(self, length: usize) -> bool
        ensures { result ≡ right self length }
    {
        match self {
            Tag::Year => length == 3,
            Tag::Plant => length == 7,
            Tag::Contract => length == 4,
            Tag::Quarter => length == 18,
            Tag::Remark => length <= LONGEST_REMARK,
            Tag::End => length == 0,
        }
    }
}

impl<'a> Record<'a> {
    pub(crate) fn new(tag: Tag, content: &'a [u8]) -> Record<'a>
        ensures tag { tag_in result ≡ tag }
        ensures content { content_in result ≡ kept tag content.now }
    {
        match tag {
            Tag::Year => Record::Year(content),
            Tag::Plant => Record::Plant(content),
            Tag::Contract => Record::Contract(content),
            Tag::Quarter => Record::Quarter(content),
            Tag::Remark => Record::Remark(content),
            Tag::End => Record::End,
        }
    }

    pub fn tag(&self) -> Tag
        ensures { result ≡ tag_in self.now }
    {
        match self {
            Record::Year(_) => Tag::Year,
            Record::Plant(_) => Tag::Plant,
            Record::Contract(_) => Tag::Contract,
            Record::Quarter(_) => Tag::Quarter,
            Record::Remark(_) => Tag::Remark,
            Record::End => Tag::End,
        }
    }
}
