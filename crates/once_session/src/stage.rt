//! What a frame does.

ghost use Rattle.std.specs.Prelude.{
  ◌≡◌,
  ◌≤◌,
  ◌<◌,
  ◌+◌,
  ◌*◌,
  ◌/◌,
  ◌⊎◌,
  ℕ,
  length,
  take,
  true,
  false,
  IfOk,
  IfErr,
  IfSome,
  IfNone,
  OnOk,
  OnErr,
  Some,
  IsErrOf,
  option_to_list,
  [],
  ◌++◌,
};
ghost use Rattle.std.specs.Io.KnownBytes.{Appends};
ghost use Rattle.std.specs.List.{flat_map};
ghost use Rattle.frame_codec.specs.Frames.{IsFrame, encoding, payload_size, payload_limit};
ghost use Rattle.frame_codec.specs.declared.frame.Frame.TheVariants.{Load, Refused};
ghost use Rattle.once_session.specs.declared.stage.Stage.TheVariants.{Fresh, Bad};
ghost use Rattle.digit_pack.specs.Layout.{IsLayout};
ghost use Rattle.once_session.specs.Outputs.{takes_frames};
ghost use Rattle.once_session.specs.Courses.{
  next,
  reply,
  query_reply,
  is_load,
  table_of,
  loaded_shape,
  WorkSteps,
  IsTable,
  HasTable,
};

use connection_io::write_out;
use digit_pack::{DigitStore, Flat, Layout, digits_of_records};
use frame_codec::{Bytes, Frame, Words, write_frame};
use matrix_u32::Kernel;
use simple_scheme::answer;
use std::alloc::{AllocError, Global};
use std::io::Write;

/// The database that a Load frame brought.
#[derive(Drop)]
pub struct Table {
    /// The sizes of its records.
    pub layout: Layout,
    /// Their digits.
    pub digits: Flat,
}

/// How far the stream has come.
#[derive(Drop)]
pub enum Stage {
    /// No frame has come: the first must be a Load.
    Fresh,
    /// The database is there.
    Loaded(Table),
    /// A Bye has come.
    Done,
    /// A frame came that has no place here.
    Bad,
}

// The layout of a Load's records, if its fields are accepted and its bytes are whole records.
#[tactic(auto, unfolding(digit_pack::specs::Layout::is_layout))]
fn load_layout(record_len: u16, groups: u16, width: u8, bytes: &[u8]) -> Option<Layout>
    ensures none { IfNone result (is_load record_len groups width bytes.now ≡ false) }
    ensures some { IfSome result (λ l. (is_load record_len groups width bytes.now ≡ true)
        × (l ≡ loaded_shape record_len groups width bytes.now)
        × (length bytes.now ≡ l.count * l.record_len)) }
    ensures layout { IfSome result IsLayout }
{
    let record_len = usize::from(record_len);
    if record_len == 0 {
        return None;
    }
    let count = bytes.len() / record_len;
    if count * record_len != bytes.len() {
        return None;
    }
    Layout::new(u32::from(width), record_len, usize::from(groups), count).ok()
}

/// What a frame does: its reply, and the stage that it leads to, if it leads to another.
#[derive(Drop)]
pub struct StageStep {
    /// The reply, if there is one.
    pub reply: Option<Frame>,
    /// The next stage, if it is another one.
    pub moves: Option<Stage>,
}

// A frame that has no place here.
fn refuse() -> StageStep
    ensures reply { result.reply ≡ Some (Refused 1) }
    ensures moves { result.moves ≡ Some Bad }
{
    StageStep {
        reply: Some(Frame::Refused { code: 1 }),
        moves: Some(Stage::Bad),
    }
}

// The first frame, if it is a Load.
fn load(
    alloc: Global,
    record_len: u16,
    groups: u16,
    width: u8,
    records: &Bytes,
) -> Result<StageStep, AllocError>
    ensures { IfOk result
        (λ s. WorkSteps Fresh (Load record_len groups width records.now) s.reply s.moves) }
{
    let Some(layout) = load_layout(record_len, groups, width, records.as_slice()) else {
        return Ok(refuse());
    };
    let digits = digits_of_records(alloc, &layout, records.as_slice())?;
    Ok(StageStep {
        reply: None,
        moves: Some(Stage::Loaded(Table { layout, digits })),
    })
}

// The reply to a query.
fn query<K: Kernel>(
    alloc: Global,
    kernel: K,
    table: &Table,
    scheme: u8,
    version: u64,
    words: &Words,
) -> Result<Frame, AllocError>
    requires { IsTable table.now }
    ensures reply { IfOk result (λ f. f ≡ query_reply table.now scheme version words.now) }
    ensures fits { IfOk result (λ f. payload_size f ≤ payload_limit) }
{
    if scheme != 0 {
        return Ok(Frame::Refused { code: 13 });
    }
    if version != 1 {
        let count = table.layout.count() as u32;
        return Ok(Frame::Stale { version: 1, count });
    }
    if words.as_slice().len() != table.layout.cols() {
        return Ok(Frame::Refused { code: 11 });
    }
    let answered = answer(alloc, kernel, &table.digits, words.as_slice())?;
    Ok(Frame::Answer {
        scheme: 0,
        version: 1,
        words: Words::new(answered),
    })
}

/// What a frame does at a stage.
pub fn step_of<K: Kernel>(
    alloc: Global,
    kernel: K,
    stage: &Stage,
    frame: &Frame,
) -> Result<StageStep, AllocError>
    requires { HasTable stage.now }
    ensures ok { IfOk result (λ s. WorkSteps stage.now frame.now s.reply s.moves) }
    ensures err { OnErr result (takes_frames stage.now ≡ true) }
{
    match stage {
        Stage::Fresh => match frame {
            Frame::Load {
                record_len,
                groups,
                width,
                records,
            } => load(alloc, *record_len, *groups, *width, records),
            _ => Ok(refuse()),
        },
        Stage::Loaded(table) => match frame {
            Frame::Query {
                scheme,
                version,
                words,
            } => {
                let reply = query(alloc, kernel, table, *scheme, *version, words)?;
                Ok(StageStep {
                    reply: Some(reply),
                    moves: None,
                })
            }
            Frame::Bye => Ok(StageStep {
                reply: None,
                moves: Some(Stage::Done),
            }),
            _ => Ok(refuse()),
        },
        Stage::Done | Stage::Bad => Ok(StageStep {
            reply: None,
            moves: None,
        }),
    }
}
