//! The grade order: a grade, and a set of categories.
ghost use Rattle.std.specs.Prelude.{◌≡◌, ◌+◌, ◌≤◌, Decides};
ghost use Rattle.labels.specs.Map.{AreOctets, map_of, label_of, has};
ghost use Rattle.labels.specs.Grade.{grade_order, Covers};
ghost use Rattle.labels.specs.GradeLattice.{grades};

use orders::LabelOrder;
use std::array;

/// A grade, and a set of the categories 0 to 239. Every value is a label.
///
/// The set is a map of thirty octets, in which category n is the bit 128 >> (n % 8) of octet n / 8. Each field
/// holds some octets of the map, high octet first, and is named by the first of them. With the widest field first a
/// label takes 32 octets.
#[derive(Clone, Copy, PartialEq, Eq, Debug)]
pub struct GradeLabel {
    pub map0: u64,
    pub map8: u64,
    pub map16: u64,
    pub map24: u32,
    pub map28: u16,
    pub grade: u8,
}

// The octets of a map from a place on. Past the map's end every octet is empty.
fn octets<const N: usize>(map: &[u8], from: usize) -> [u8; N]
    requires { from + N ≤ 32 }
    ensures { AreOctets map.now from N result }
{
    array::from_fn(|at| map.get(from + at).copied().unwrap_or(0))
}

impl GradeLabel {
    // `From` takes one value, and this takes two.
    /// The label of a grade and a map. Octets that the map lacks are empty, and those past the thirtieth do not count.
    pub fn from_map(grade: u8, map: &[u8]) -> GradeLabel
        ensures { result ≡ label_of grade map.now }
    {
        GradeLabel {
            map0: u64::from_be_bytes(octets(map, 0)),
            map8: u64::from_be_bytes(octets(map, 8)),
            map16: u64::from_be_bytes(octets(map, 16)),
            map24: u32::from_be_bytes(octets(map, 24)),
            map28: u16::from_be_bytes(octets(map, 28)),
            grade,
        }
    }

    // `From` would give the whole label, and this gives a part.
    /// The map of the label's categories.
    #[tactic(auto, unfolding(crate::specs::Map::map_of))]
    pub fn to_map(self) -> [u8; 30]
        ensures { result ≡ map_of self }
    {
        let mut map = [0; 30];
        map[0..8].copy_from_slice(&self.map0.to_be_bytes());
        map[8..16].copy_from_slice(&self.map8.to_be_bytes());
        map[16..24].copy_from_slice(&self.map16.to_be_bytes());
        map[24..28].copy_from_slice(&self.map24.to_be_bytes());
        map[28..30].copy_from_slice(&self.map28.to_be_bytes());
        map
    }

    /// Whether the label has the category: none above 239.
    #[tactic(auto, using(crate::proofs::Categories::bit_of))]
    pub fn has(self, category: u8) -> bool
        ensures { result ≡ has self category }
    {
        let map = self.to_map();
        let octet = map.get(usize::from(category / 8)).copied().unwrap_or(0);
        octet & (128 >> (category % 8)) != 0
    }
}

impl LabelOrder for GradeLabel {
    ghost order = { grade_order };

    ghost lattice = { grades };

    #[tactic(auto, using(crate::proofs::Coverage::covers), unfolding(crate::specs::Sets::contains))]
    fn dominates(self, other: GradeLabel) -> bool
        ensures answer { result ≡ grade_order.dominance self other }
        ensures covers { Decides result (Covers self other) }
    {
        (self.grade >= other.grade)
            & (self.map0 & other.map0 == other.map0)
            & (self.map8 & other.map8 == other.map8)
            & (self.map16 & other.map16 == other.map16)
            & (self.map24 & other.map24 == other.map24)
            & (self.map28 & other.map28 == other.map28)
    }

    // Field by field, here and in `meet`: the fields have four widths, and a closure takes one.
    fn join(self, other: GradeLabel) -> GradeLabel {
        GradeLabel {
            map0: self.map0 | other.map0,
            map8: self.map8 | other.map8,
            map16: self.map16 | other.map16,
            map24: self.map24 | other.map24,
            map28: self.map28 | other.map28,
            grade: self.grade.max(other.grade),
        }
    }

    fn meet(self, other: GradeLabel) -> GradeLabel {
        GradeLabel {
            map0: self.map0 & other.map0,
            map8: self.map8 & other.map8,
            map16: self.map16 & other.map16,
            map24: self.map24 & other.map24,
            map28: self.map28 & other.map28,
            grade: self.grade.min(other.grade),
        }
    }

    fn low() -> GradeLabel {
        GradeLabel::from_map(0, &[])
    }

    fn high() -> GradeLabel {
        GradeLabel::from_map(u8::MAX, &[u8::MAX; 30])
    }

    fn attest(self) {}
}
