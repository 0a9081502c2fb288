//! Why a chain of sessions isn't accepted.

use session_file::FileFault;
use thiserror::Error;

/// The first fault of a chain. The first `usize` is the index of the session, the second that of its record (in
/// `MissingSource`, of the file among the session's files), the third that of the edge or read.
#[derive(Clone, Copy, Debug, PartialEq, Eq, Error)]
pub enum AuditFault {
    /// There is no session.
    #[error("14.1 EmptyChain")]
    EmptyChain,
    /// The file of this session is refused.
    #[error("14.2 File({0}, {1})")]
    File(usize, FileFault),
    /// The session has another number, or its link isn't the SHA-256 of the file before.
    #[error("14.3 BrokenLink({0})")]
    BrokenLink(usize),
    /// The session doesn't hold the names of its files.
    #[error("14.4 NoFiles({0})")]
    NoFiles(usize),
    /// The session holds no bytes of this file.
    #[error("14.5 MissingSource({0}, {1})")]
    MissingSource(usize, usize),
    /// This record is the source of none of the session's files.
    #[error("14.6 StraySource({0}, {1})")]
    StraySource(usize, usize),
    /// This record is green, and the previous session has no record of its key.
    #[error("14.7 GreenWithoutPast({0}, {1})")]
    GreenWithoutPast(usize, usize),
    /// This record is green and of a kind that goes by the profile, and the previous session is of another profile.
    #[error("14.17 GreenAcrossProfiles({0}, {1})")]
    GreenAcrossProfiles(usize, usize),
    /// This record is green, and its edges aren't those of the previous session.
    #[error("14.8 OtherEdges({0}, {1})")]
    OtherEdges(usize, usize),
    /// This record is green, and this edge has another fingerprint than in the previous session.
    #[error("14.9 GreenOverRed({0}, {1}, {2})")]
    GreenOverRed(usize, usize, usize),
    /// This record is green, and has another fingerprint than in the previous session.
    #[error("14.10 GreenPrint({0}, {1})")]
    GreenPrint(usize, usize),
    /// This record was executed, and its run reads another key than this edge's.
    #[error("14.11 OtherRead({0}, {1}, {2})")]
    OtherRead(usize, usize, usize),
    /// This record was executed, and its run doesn't read all its edges.
    #[error("14.12 UnreadEdges({0}, {1})")]
    UnreadEdges(usize, usize),
    /// This record was executed, and its run has another result.
    #[error("14.13 OtherResult({0}, {1})")]
    OtherResult(usize, usize),
    /// The last session has no answer.
    #[error("14.14 NoAnswer")]
    NoAnswer,
    /// The last session's files aren't those handed in.
    #[error("14.15 SourcesDiffer")]
    SourcesDiffer,
    /// Memory ran out.
    #[error("out of memory")]
    OutOfMemory,
}
