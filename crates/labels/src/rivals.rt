//! The rival order: in each of eight classes of rivals no broker, one broker, or conflict.
ghost use Rattle.std.specs.Prelude.{◌≡◌};
ghost use Rattle.labels.specs.Classes.{class_dominance, class_bound};
ghost use Rattle.labels.specs.Rival.{rival_order, unknown_class, with_classes, rival_of, ByClass};
ghost use Rattle.labels.specs.RivalLattice.{rivals};

use orders::LabelOrder;

// Numbers and no enum of none, brokers and conflict: the project wants a class to be any octet.
const NONE: u8 = 0;

const CONFLICT: u8 = 251;

// Eight fields and no array: the project fixes the form of the label.
/// Whose information something is, in each of eight classes of rivals: 0 is nobody's, 1 to 250 that of one broker, and
/// 251 conflict, that of more than one. Every value is a label: 252 to 255 are taken as brokers, which `try_from` never
/// lets in.
#[derive(Clone, Copy, PartialEq, Eq, Debug)]
pub struct RivalLabel {
    pub class0: u8,
    pub class1: u8,
    pub class2: u8,
    pub class3: u8,
    pub class4: u8,
    pub class5: u8,
    pub class6: u8,
    pub class7: u8,
}

/// Why eight numbers form no label: in this class, the first such and counted from 0, the number is above 251.
#[derive(Clone, Copy, PartialEq, Eq, Debug)]
pub struct UnknownBroker {
    pub class: usize,
}

impl UnknownBroker {
    // A number, since the project lists its refusals by numbers.
    /// The number by which the refusal is known.
    pub fn number(self) -> u8
        ensures { result ≡ 12 }
    {
        12
    }
}

impl RivalLabel {
    // The label made of two, class by class.
    fn by_class<F: Fn(u8, u8) -> u8>(self, other: RivalLabel, make: F) -> RivalLabel
        requires { F.IsAlwaysCallable make }
        ensures { ByClass (F.post make) self other result }
    {
        RivalLabel {
            class0: make(self.class0, other.class0),
            class1: make(self.class1, other.class1),
            class2: make(self.class2, other.class2),
            class3: make(self.class3, other.class3),
            class4: make(self.class4, other.class4),
            class5: make(self.class5, other.class5),
            class6: make(self.class6, other.class6),
            class7: make(self.class7, other.class7),
        }
    }

    // The label with these numbers in its classes.
    fn with_classes(classes: [u8; 8]) -> RivalLabel
        ensures { result ≡ with_classes classes }
    {
        RivalLabel {
            class0: classes[0],
            class1: classes[1],
            class2: classes[2],
            class3: classes[3],
            class4: classes[4],
            class5: classes[5],
            class6: classes[6],
            class7: classes[7],
        }
    }
}

// The first class whose number is above 251.
fn unknown_class(classes: &[u8]) -> Option<usize>
    ensures { result ≡ unknown_class classes.now }
{
    classes.iter().position(|number| *number > CONFLICT)
}

impl TryFrom<[u8; 8]> for RivalLabel {
    type Error = UnknownBroker;

    ghost try_from_gives = { λ classes r. r ≡ rival_of classes };

    /// The label with these numbers in its classes, unless one is above 251.
    #[tactic(auto, unfolding(crate::specs::Rival::rival_of))]
    fn try_from(classes: [u8; 8]) -> Result<RivalLabel, UnknownBroker> {
        match unknown_class(&classes) {
            Some(class) => Err(UnknownBroker { class }),
            None => Ok(RivalLabel::with_classes(classes)),
        }
    }
}

#[tactic(auto, unfolding(crate::specs::Classes::class_dominance))]
fn class_dominates(a: u8, b: u8) -> bool
    ensures { result ≡ class_dominance a b }
{
    (a == CONFLICT) | (b == NONE) | (a == b)
}

// The bound of two numbers of a class: the other where one is neutral, and the extreme where two others differ.
fn class_bound<const NEUTRAL: u8, const EXTREME: u8>(a: u8, b: u8) -> u8
    ensures { result ≡ class_bound NEUTRAL EXTREME a b }
{
    match (a, b) {
        (number, other) | (other, number) if number == NEUTRAL => other,
        _ if a == b => a,
        _ => EXTREME,
    }
}

impl LabelOrder for RivalLabel {
    ghost order = { rival_order };

    ghost lattice = { rivals };

    fn dominates(self, other: RivalLabel) -> bool {
        class_dominates(self.class0, other.class0)
            & class_dominates(self.class1, other.class1)
            & class_dominates(self.class2, other.class2)
            & class_dominates(self.class3, other.class3)
            & class_dominates(self.class4, other.class4)
            & class_dominates(self.class5, other.class5)
            & class_dominates(self.class6, other.class6)
            & class_dominates(self.class7, other.class7)
    }

    fn join(self, other: RivalLabel) -> RivalLabel {
        self.by_class(other, class_bound::<NONE, CONFLICT>)
    }

    fn meet(self, other: RivalLabel) -> RivalLabel {
        self.by_class(other, class_bound::<CONFLICT, NONE>)
    }

    fn low() -> RivalLabel {
        RivalLabel::with_classes([NONE; 8])
    }

    fn high() -> RivalLabel {
        RivalLabel::with_classes([CONFLICT; 8])
    }

    fn attest(self) {}
}
