//! Laws of logs and of crashes, over the definitions alone.

ghost use Rattle.publication_log.specs.Crashes.{
  EachMomentIsWhole,
  DoneIsKept,
  RestIsRead,
  CutIsWhole,
  CutIsOld,
  RecoveryIsWhole,
  RecoveryIsDone,
  TakenBackIsWhole,
  TakenBackIsOld,
};
ghost use Rattle.publication_log.specs.Laws.{
  TornPrefix,
  OneLogVerdict,
  OneEncoding,
  RefusedIsNone,
  FoundIsEnd,
  EndGoesOn,
  WholeLogIsRead,
};

/// However an append ends, a crash at any moment of it leaves the publications from before it, with
/// the new one or without.
pub fn each_moment_is_whole()
    ensures { EachMomentIsWhole }
{}

/// After an append that was done the log is at rest, with the new publication.
pub fn done_is_kept()
    ensures { DoneIsKept }
{}

/// A log at rest is read as its publications.
pub fn rest_is_read()
    ensures { RestIsRead }
{}

/// However a cut after a failed append ends, a crash at any moment of it leaves the publications
/// from before that append, with the new one or without.
pub fn cut_is_whole()
    ensures { CutIsWhole }
{}

/// After a cut that was done the log is at rest, without the publication whose append failed.
pub fn cut_is_old()
    ensures { CutIsOld }
{}

/// However a cut of a torn end ends, a crash at any moment of it leaves the publications before
/// that end.
pub fn recovery_is_whole()
    ensures { RecoveryIsWhole }
{}

/// After a cut of a torn end that was done the log is at rest.
pub fn recovery_is_done()
    ensures { RecoveryIsDone }
{}

/// However taking a publication back ends, a crash at any moment of it leaves the publications from
/// before it, with that one or without.
pub fn taken_back_is_whole()
    ensures { TakenBackIsWhole }
{}

/// After a publication was taken back the log is at rest without it.
pub fn taken_back_is_old()
    ensures { TakenBackIsOld }
{}

/// A prefix of torn bytes is torn.
pub fn torn_prefix()
    ensures { TornPrefix }
{}

/// No bytes have two verdicts if one of them is that they are a good log.
pub fn one_verdict()
    ensures { OneLogVerdict }
{}

/// No two publications have the same bytes.
pub fn one_encoding()
    ensures { OneEncoding }
{}

/// Bytes with a fault are no publication's: with [`one_encoding`], what is made of a publication is
/// decoded as that publication.
pub fn refused_is_none()
    ensures { RefusedIsNone }
{}

/// What [`read_log`](crate::read_log) found is the end of the log.
pub fn found_is_end()
    ensures { FoundIsEnd }
{}

/// [`Log::append`](crate::Log::append) of what a builder holds, to the end of a log, writes the
/// entry of that publication, and what an append leaves that was done is the end of the log with
/// that publication.
pub fn end_goes_on()
    ensures { EndGoesOn }
{}

/// What [`read_log`](crate::read_log) finds in the bytes of a log, as [`relinked`](crate::relinked)
/// makes them, are exactly its publications.
pub fn whole_log_is_read()
    ensures { WholeLogIsRead }
{}
