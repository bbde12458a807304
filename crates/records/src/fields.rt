//! The fields of a record.
ghost use Rattle.std.specs.Prelude.{◌≡◌};
ghost use Rattle.std.specs.Option.{option_map};
ghost use Rattle.records.specs.Fields.{field_of};

const COMMA: u8 = b',';

/// The field that begins at octet `from` of the record: the octets up to the next comma, or to the record's end. There is
/// none past the end, and the empty field at it.
pub fn field_at(line: &[u8], from: usize) -> Option<&[u8]>
    ensures { option_map (λ x. x.now) result ≡ field_of line.now from }
{
    line.get(from..)?.split(|octet| *octet == COMMA).next()
}
