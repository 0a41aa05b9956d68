//! The word of a slot, by its parts.

ghost use Rattle.std.specs.Prelude.{◌≡◌, ◌<◌, ◌^◌, IsTrue};
ghost use Rattle.switchless.specs.Slots.{slot_word, place_of_frame, frame_at, tag_in, ordinal_in, place_in, status_in, is_done as has_done_tag, is_offered as counts_as_offered, tag_number, IsFrameUpTo, last_frame};
ghost use Rattle.switchless.specs.Tasks.{IsTask, task_word};

use crate::Task;
use sgx_base::{HOST_START, Status};

/// How far the call in a slot is.
#[derive(Clone, Copy, Debug, PartialEq, Eq)]
pub(crate) enum Tag {
    Free,
    Offered,
    Accepted,
    Done,
}

/// The parts of a slot's word: an ordinal has 16 bits, and the place of a frame 17.
#[derive(Clone, Copy, Debug, PartialEq, Eq)]
pub(crate) struct SlotWord {
    pub(crate) tag: Tag,
    pub(crate) ordinal: u32,
    pub(crate) place: u32,
    pub(crate) status: u32,
}

/// Where the ordinal, the place and the status begin in a word.
const ORDINAL_UNIT: u64 = 1 << 2;

const PLACE_UNIT: u64 = 1 << 18;

const STATUS_UNIT: u64 = 1 << 35;

impl SlotWord {
    /// The word of these parts.
    pub(crate) fn packed(self) -> u64
        requires ordinal { self.ordinal < 2 ^ 16 }
        requires place { self.place < 2 ^ 17 }
        requires status { self.status < 2 ^ 16 }
        ensures { result ≡ slot_word (tag_number self.tag) self.ordinal self.place self.status }
    {
        let tag = match self.tag {
            Tag::Free => 0,
            Tag::Offered => 1,
            Tag::Accepted => 2,
            Tag::Done => 3,
        };
        tag + ORDINAL_UNIT * u64::from(self.ordinal)
            + PLACE_UNIT * u64::from(self.place)
            + STATUS_UNIT * u64::from(self.status)
    }

    /// The parts of a word.
    pub(crate) fn unpacked(word: u64) -> SlotWord
        ensures tag { tag_number result.tag ≡ tag_in word }
        ensures ordinal { result.ordinal ≡ ordinal_in word }
        ensures place { result.place ≡ place_in word }
        ensures status { result.status ≡ status_in word }
    {
        SlotWord {
            tag: tag_of(word),
            ordinal: (word / ORDINAL_UNIT % (1 << 16)) as u32,
            place: (word / PLACE_UNIT % (1 << 17)) as u32,
            status: (word / STATUS_UNIT) as u32,
        }
    }
}

/// The tag in a word.
fn tag_of(word: u64) -> Tag
    ensures { tag_number result ≡ tag_in word }
{
    match word % ORDINAL_UNIT {
        0 => Tag::Free,
        1 => Tag::Offered,
        2 => Tag::Accepted,
        _ => Tag::Done,
    }
}

/// Whether the call in the word was served.
pub(crate) fn is_done(word: u64) -> bool
    ensures { result ≡ has_done_tag word }
{
    matches!(SlotWord::unpacked(word).tag, Tag::Done)
}

/// Whether the word is an offered call, which has no status yet.
pub(crate) fn is_offered(word: u64) -> bool
    ensures { result ≡ counts_as_offered word }
{
    matches!(SlotWord::unpacked(word).tag, Tag::Offered) && word < STATUS_UNIT
}

/// The place of a frame: 0 for a null frame, else its offset in host memory plus 1.
fn place_of(frame: u64) -> u32
    requires { IsFrameUpTo last_frame frame }
    ensures place { result ≡ place_of_frame frame }
    ensures short { result < 2 ^ 17 }
{
    if frame == 0 {
        return 0;
    }
    (frame - HOST_START) as u32 + 1
}

/// The frame of a place.
fn frame_of(place: u32) -> u64
    requires { place < 2 ^ 17 }
    ensures frame { result ≡ frame_at place }
    ensures task { IsFrameUpTo last_frame result }
{
    if place == 0 {
        return 0;
    }
    HOST_START + u64::from(place) - 1
}

impl Task {
    /// The word of the task's slot with this tag and status.
    pub(crate) fn word(&self, tag: Tag, status: u32) -> u64
        requires task { IsTask self.now }
        requires status { status < 2 ^ 16 }
        ensures { result ≡ slot_word (tag_number tag) self.now.ordinal (place_of_frame self.now.frame) status }
    {
        let word = SlotWord {
            tag,
            ordinal: self.ordinal,
            place: place_of(self.frame),
            status,
        };
        word.packed()
    }

    /// The task that an offered word in a slot tells of.
    pub(crate) fn in_word(slot: u32, word: u64) -> Task
        requires { IsTrue (counts_as_offered word) }
        ensures slot { result.slot ≡ slot }
        ensures task { IsTask result }
        ensures word { task_word result ≡ word }
    {
        let word = SlotWord::unpacked(word);
        Task {
            slot,
            ordinal: word.ordinal,
            frame: frame_of(word.place),
        }
    }
}

/// The status in a word.
pub(crate) fn status_of(word: u64) -> Status
    ensures { result.0 ≡ status_in word }
{
    Status(SlotWord::unpacked(word).status)
}
