//! Reading a tag.
//!
//! Octet 0 is the type, octet 1 the length of the whole tag, octet 2 is empty, and octet 3 is the grade. Type 1 goes on with
//! the map of the categories, of which empty octets at the end may be left out. Type 2 goes on with the categories
//! themselves, of two octets each, high octet first and strictly rising.
ghost use Rattle.std.specs.Prelude.{◌≡◌, ◌<◌, ◌≤◌, length};
ghost use Rattle.tags.specs.Tag.{type_of, length_of, tag_of, list_of, marked, empty, ListReads, MapReads};

use crate::faults::TagFault;
use labels::GradeLabel;

const HEAD: usize = 4;

const LONGEST: usize = 34;

const LAST_CATEGORY: u16 = 239;

// How a tag writes its categories.
#[derive(Clone, Copy, PartialEq, Eq)]
enum TagType {
    Map,
    List,
}

impl TryFrom<u8> for TagType {
    type Error = TagFault;

    ghost try_from_gives = { λ octet r. r ≡ type_of octet };

    fn try_from(octet: u8) -> Result<TagType, TagFault> {
        match octet {
            1 => Ok(TagType::Map),
            2 => Ok(TagType::List),
            _ => Err(TagFault { octet: 0 }),
        }
    }
}

// The length of a whole tag, by its second octet, in an input of this length.
fn tag_length(tag_type: TagType, octet: u8, input: usize) -> Result<usize, TagFault>
    ensures { result ≡ length_of tag_type octet input }
{
    let whole = usize::from(octet);
    let odd = tag_type == TagType::List && whole % 2 == 1;
    if whole < HEAD || whole > LONGEST || whole > input || odd {
        return Err(TagFault { octet: 1 });
    }
    Ok(whole)
}

// Puts a category into a map.
fn mark(map: &mut [u8; 30], category: u8)
    requires { category < 240 }
    ensures { map.new ≡ marked map.old category }
{
    map[usize::from(category / 8)] |= 128 >> (category % 8);
}

// The label of the list of a type 2 tag.
fn read_list(grade: u8, list: &[u8]) -> Result<GradeLabel, TagFault>
    requires { length list.now ≤ 30 }
    ensures { result ≡ list_of grade empty 0 4 list.now }
{
    let mut map = [0u8; 30];
    let mut least = 0u16;
    let (pairs, _) = list.as_chunks::<2>();
    for (place, [high, low]) in pairs.iter().enumerate() {
        let category = u16::from_be_bytes([*high, *low]);
        if category < least || category > LAST_CATEGORY {
            return Err(TagFault {
                octet: HEAD + 2 * place,
            });
        }
        mark(&mut map, category as u8);
        least = category + 1;
    }
    Ok(GradeLabel::from_map(grade, &map))
}

/// The label of the tag that the input begins with, and the number of octets that the tag takes.
pub fn read_tag(input: &[u8]) -> Result<(GradeLabel, usize), TagFault>
    ensures { result ≡ tag_of input.now }
{
    let [kind, ..] = input else {
        return Err(TagFault { octet: 0 });
    };
    let tag_type = TagType::try_from(*kind)?;
    let [_, length, zero, grade, rest @ ..] = input else {
        return Err(TagFault { octet: 1 });
    };
    let whole = tag_length(tag_type, *length, input.len())?;
    if *zero != 0 {
        return Err(TagFault { octet: 2 });
    }
    let body = &rest[..whole - HEAD];
    let label = match tag_type {
        TagType::Map => GradeLabel::from_map(*grade, body),
        TagType::List => read_list(*grade, body)?,
    };
    Ok((label, whole))
}

/// A theorem, and no code: a tag that is read has the categories that its octets write, and no other.
pub fn tags_are_their_categories()
    ensures lists { ListReads }
    ensures maps { MapReads }
{}
