//! What doesn't count where presentations are compared by the rest.

/// A word that says what doesn't count.
#[derive(Clone, Copy, Debug, PartialEq, Eq)]
pub enum Word {
    /// Creation and modification times of the movie, its tracks and their media (8.2.2, 8.3.2,
    /// 8.4.2): they are 0.
    Times,
    /// Edit lists (8.6.6).
    Edits,
    /// All flags of samples but sample_is_non_sync_sample (8.8.3.1).
    Flags,
    /// Descriptions of sample groups and the samples' indexes of them (8.9).
    Groups,
    /// Kept boxes `udta`, `meta` and `iods` of the movie and its tracks.
    Metadata,
    /// Bit rates and sizes of buffers in sample descriptions: `btrt` (8.5.2.2), and the fields of
    /// `esds` that say them (ISO/IEC 14496-1, 7.2.6.6).
    Bitrates,
    /// Durations of the first and of the last sample of a track (8.6.1.2, 8.8.8): they are 1.
    Ends,
    /// Where a track begins: it begins at 0, and from each composition offset (8.6.1.3) that of the
    /// track's first sample is taken.
    Origins,
    /// Names for people: those of handlers (8.4.3), and of compressors (12.1.3).
    Labels,
    /// When samples are decoded and shown: a track begins at 0, each duration (8.6.1.2, 8.8.8) is
    /// 1, each composition offset (8.6.1.3) 0, and the timescales (8.2.2, 8.4.2) are 1,000.
    Timing,
    /// What a player does with a track beside others: its flags but "track enabled" (8.3.2.3), its
    /// layer and its alternate group (8.3.2): they are 0.
    Roles,
    /// Which IDs tracks have (8.3.2): each has its place among the tracks of the movie, from 1. In
    /// `esds` of sample descriptions, where writers put them, ES_ID is 0 (ISO/IEC 14496-14, 3.1.2).
    Ids,
    /// In which timescales times are said (8.2.2, 8.4.2): the times of a track and its timescale
    /// are divided by what divides all of them, and so are those of the movie.
    Timescales,
    /// How tracks begin: by when their samples begin (8.8.12), by composition offsets (8.6.1.3), by
    /// edits (8.6.6). Each begins at 0, and an edit says how many microseconds later than the first
    /// of them it begins. Where edits say more than that, they stay.
    LeadIns,
}

impl Word {
    ghost use Rattle.std.specs.Prelude.{◌≡◌, ◌<◌};
    ghost use Rattle.mp4_content.specs.format.Words.{word_name, word_number};

    /// All words, in the order in which they are told of.
    pub const ALL: &'static [Word] = &[
        Word::Times,
        Word::Edits,
        Word::Flags,
        Word::Groups,
        Word::Metadata,
        Word::Bitrates,
        Word::Ends,
        Word::Origins,
        Word::Labels,
        Word::Timing,
        Word::Roles,
        Word::Ids,
        Word::Timescales,
        Word::LeadIns,
    ];

    /// Its place among all words, from 0.
    pub fn number(self) -> u32
        ensures value { result ≡ word_number self }
        ensures small { result < 32 }
    {
        self as u32
    }

    /// What it is called.
    pub fn name(self) -> &'static str
        ensures { result.now ≡ word_name self }
    {
        match self {
            Word::Times => "times",
            Word::Edits => "edits",
            Word::Flags => "flags",
            Word::Groups => "groups",
            Word::Metadata => "metadata",
            Word::Bitrates => "bitrates",
            Word::Ends => "ends",
            Word::Origins => "origins",
            Word::Labels => "labels",
            Word::Timing => "timing",
            Word::Roles => "roles",
            Word::Ids => "ids",
            Word::Timescales => "timescales",
            Word::LeadIns => "lead-ins",
        }
    }
}

/// The words of what is left out of a presentation (`remaining` in
/// `specs/format/Remaining.antt`). `lead-ins` changes what a movie shows before anything is left
/// out of it (`told` in `specs/format/LeadIns.antt`), and nothing more: the rest goes by
/// `when_told`.
#[derive(Clone, Copy, Debug, PartialEq, Eq)]
pub struct Without {
    times: bool,
    edits: bool,
    flags: bool,
    groups: bool,
    metadata: bool,
    bitrates: bool,
    ends: bool,
    origins: bool,
    labels: bool,
    timing: bool,
    roles: bool,
    ids: bool,
    timescales: bool,
    lead_ins: bool,
}

impl Without {
    ghost use Rattle.std.specs.Prelude.{◌≡◌};
    ghost use Rattle.mp4_content.specs.format.LeadIns.{with_origins};
    ghost use Rattle.mp4_content.specs.format.Reduced.{id_left, keeps_samples, role_left, start_left, timescale_left, track_flags_left};
    ghost use Rattle.mp4_content.specs.format.Words.{has};
    ghost use Rattle.mp4_content.specs.words.PayloadsLeft.{leaves_payloads};

    /// Nothing is left out.
    pub const NOTHING: Without = Without {
        times: false,
        edits: false,
        flags: false,
        groups: false,
        metadata: false,
        bitrates: false,
        ends: false,
        origins: false,
        labels: false,
        timing: false,
        roles: false,
        ids: false,
        timescales: false,
        lead_ins: false,
    };

    /// Whether a word is among them.
    #[inline]
    pub fn has(self, word: Word) -> bool
        ensures { result ≡ has self word }
    {
        match word {
            Word::Times => self.times,
            Word::Edits => self.edits,
            Word::Flags => self.flags,
            Word::Groups => self.groups,
            Word::Metadata => self.metadata,
            Word::Bitrates => self.bitrates,
            Word::Ends => self.ends,
            Word::Origins => self.origins,
            Word::Labels => self.labels,
            Word::Timing => self.timing,
            Word::Roles => self.roles,
            Word::Ids => self.ids,
            Word::Timescales => self.timescales,
            Word::LeadIns => self.lead_ins,
        }
    }

    /// The words of which something is so.
    pub fn each<F: Fn(Word) -> bool>(is_so: F) -> Without
        requires { F.IsAlwaysCallable is_so }
        ensures { (w : _) → F.post is_so w (has result w) }
    {
        Without {
            times: is_so(Word::Times),
            edits: is_so(Word::Edits),
            flags: is_so(Word::Flags),
            groups: is_so(Word::Groups),
            metadata: is_so(Word::Metadata),
            bitrates: is_so(Word::Bitrates),
            ends: is_so(Word::Ends),
            origins: is_so(Word::Origins),
            labels: is_so(Word::Labels),
            timing: is_so(Word::Timing),
            roles: is_so(Word::Roles),
            ids: is_so(Word::Ids),
            timescales: is_so(Word::Timescales),
            lead_ins: is_so(Word::LeadIns),
        }
    }

    /// What goes of a movie whose edits say how long its tracks wait: where it doesn't count how
    /// they begin, origins too.
    pub fn when_told(self) -> Without
        ensures { result ≡ with_origins self.lead_ins self }
    {
        Without {
            origins: self.origins || self.lead_ins,
            ..self
        }
    }

    /// A timescale, of a movie or of media; 1,000 where timing doesn't count.
    pub fn timescale(self, timescale: u32) -> u32
        ensures { result ≡ timescale_left self timescale }
    {
        if self.timing { 1000 } else { timescale }
    }

    /// The flags of a track; "track enabled" alone where roles don't count.
    pub fn track_flags(self, flags: u32) -> u32
        ensures { result ≡ track_flags_left self flags }
    {
        if self.roles { flags % 2 } else { flags }
    }

    /// The layer or the alternate group of a track; 0 where roles don't count.
    pub fn role(self, role: i16) -> i16
        ensures { result ≡ role_left self role }
    {
        if self.roles { 0 } else { role }
    }

    /// The ID of the track at this place, from 1; the place, as far as 32 bits go, where IDs don't
    /// count.
    pub fn id(self, place: u64, id: u32) -> u32
        ensures { result ≡ id_left self place id }
    {
        if self.ids {
            place.min(u64::from(u32::MAX)) as u32
        } else {
            id
        }
    }

    /// When a track begins; 0 where timing doesn't count, or where tracks begin.
    pub fn start(self, start: u64) -> u64
        ensures { result ≡ start_left self start }
    {
        if self.timing || self.origins {
            0
        } else {
            start
        }
    }

    /// Whether samples stay as they are.
    pub fn keeps_samples(self) -> bool
        ensures { result ≡ keeps_samples self }
    {
        !self.flags && !self.groups && !self.ends && !self.origins && !self.timing
    }

    // Whether payloads of media are left out, or parts of them.
    pub(crate) fn leaves_payloads(self) -> bool
        ensures { result ≡ leaves_payloads self }
    {
        self.labels || self.bitrates || self.ids
    }
}
