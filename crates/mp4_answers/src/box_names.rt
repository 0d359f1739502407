//! Which boxes are named.
ghost use Rattle.std.specs.Prelude.{◌≡◌};
ghost use Rattle.mp4_answers.specs.format.Losses.{is_foreign, is_named_foreign};
ghost use Rattle.mp4_answers.specs.format.StripCounts.{first_meant};
ghost use Rattle.mp4_answers.specs.format.Strips.{holder, is_in, is_uuid, means, is_named};
ghost use Rattle.mp4_answers.specs.words.CountedBoxes.{counts_on};

use mp4_boxes::{FourCc, Rule};

/// Which boxes are meant.
#[derive(Clone, Copy)]
pub enum Name {
    /// Those of a type: everywhere, or those that stand in one container alone. The container's
    /// type is `file` for the file itself.
    Type {
        container: Option<FourCc>,
        kind: FourCc,
    },
    /// The `uuid` boxes whose payload begins with these bytes, in the same containers.
    Uuid {
        container: Option<FourCc>,
        uuid: [u8; 16],
    },
    /// Those that the profile refuses where they stand.
    Foreign,
}

/// All rules.
const HOLDING: [Rule; 11] = [
    Rule::File,
    Rule::Movie,
    Rule::Track,
    Rule::Edits,
    Rule::Media,
    Rule::MediaInformation,
    Rule::DataInformation,
    Rule::SampleTable,
    Rule::MovieExtends,
    Rule::MovieFragment,
    Rule::TrackFragment,
];

/// The type of the container whose boxes lie under a rule.
pub fn holder(rule: Rule) -> FourCc
    ensures { result.0 ≡ holder rule }
{
    match rule {
        Rule::File => FourCc::FILE,
        Rule::Movie => FourCc(*b"moov"),
        Rule::Track => FourCc(*b"trak"),
        Rule::Edits => FourCc(*b"edts"),
        Rule::Media => FourCc(*b"mdia"),
        Rule::MediaInformation => FourCc(*b"minf"),
        Rule::DataInformation => FourCc(*b"dinf"),
        Rule::SampleTable => FourCc(*b"stbl"),
        Rule::MovieExtends => FourCc(*b"mvex"),
        Rule::MovieFragment => FourCc(*b"moof"),
        Rule::TrackFragment => FourCc(*b"traf"),
    }
}

/// Whether boxes of containers of this type are listed.
pub fn is_holder(container: FourCc) -> bool {
    HOLDING.iter().any(|rule| holder(*rule) == container)
}

// Whether a name's container, if it has one, is that of the rule.
fn is_in(container: Option<FourCc>, rule: Rule) -> bool
    ensures { result ≡ is_in container rule }
{
    match container {
        None => true,
        Some(container) => container == holder(rule),
    }
}

/// The type of a box, and of a `uuid` the 16 bytes that say which it is (ISO/IEC 14496-12, 4.2).
#[derive(Clone, Copy)]
pub(crate) struct FullType {
    pub(crate) kind: FourCc,
    pub(crate) uuid: Option<[u8; 16]>,
}

// Whether these are the 16 bytes of a `uuid`.
fn is_uuid(own: Option<[u8; 16]>, uuid: [u8; 16]) -> bool
    ensures { result ≡ is_uuid uuid own }
{
    match own {
        None => false,
        Some(own) => own == uuid,
    }
}

// Whether the name means boxes of this type under the rule.
fn means(name: &Name, rule: Rule, own: FullType) -> bool
    ensures { result ≡ means rule own.kind.0 own.uuid name.now }
{
    match *name {
        Name::Type { container, kind } => kind == own.kind && is_in(container, rule),
        Name::Uuid { container, uuid } => is_uuid(own.uuid, uuid) && is_in(container, rule),
        Name::Foreign => !rule.allows(own.kind),
    }
}

/// Whether some name means boxes of this type under the rule.
pub(crate) fn is_named(names: &[Name], rule: Rule, own: FullType) -> bool
    ensures { result ≡ is_named names.now rule own.kind.0 own.uuid }
{
    names.iter().any(|name| means(name, rule, own))
}

// Whether the name is that of foreign boxes.
fn is_foreign(name: &Name) -> bool
    ensures { result ≡ is_foreign name.now }
{
    matches!(name, Name::Foreign)
}

/// Whether the first name that means boxes of this type under the rule is that of foreign boxes.
pub(crate) fn is_named_foreign(names: &[Name], rule: Rule, own: FullType) -> bool
    ensures { result ≡ is_named_foreign rule own.kind.0 own.uuid names.now }
{
    for k in 0..names.len() {
        if means(&names[k], rule, own) {
            return is_foreign(&names[k]);
        }
    }
    false
}

/// Counts a box for the first name that means it.
pub(crate) fn count_box(names: &[Name], rule: Rule, own: FullType, counts: &mut [u64])
    ensures { counts.new ≡ counts_on counts.old
        (first_meant rule own.kind.0 own.uuid names.now) }
{
    for k in 0..names.len().min(counts.len()) {
        if means(&names[k], rule, own) {
            counts[k] = counts[k].saturating_add(1);
            return;
        }
    }
}
