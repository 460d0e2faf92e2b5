//! What a run leaves to its caller.
use early_verdict::Early;
use online_robust::RobustNet;
use session_mux::Mux;
use written_streams::Watch;

/// What a run that answers row by row, or line by line, leaves to its caller.
#[derive(Drop)]
pub enum Kept {
    /// Nothing was left.
    Nothing,
    /// The watch by which `watch` answered.
    Watch(Watch),
    /// What decided, by which `early` answered.
    Early(Early),
    /// The sessions that `mux` answered.
    Mux(Mux),
    /// The network of margins by which `rwatch` answered, all of which was taken.
    Margins(RobustNet),
}
