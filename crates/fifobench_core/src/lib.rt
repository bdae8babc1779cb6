//! Everything that the author of a queue needs, in one crate: questions and answers, plans and runs, histories and
//! verdicts, and their texts.
//!
//! The crate has no code of its own. `own_queue` and `racy_queue` are whole programs that use it.
#![tactic(auto)]

pub use drawing::{MOST_DRAWN, count_of_lines, drawn_operations, scene_of, terminal_picture};
pub use event_records::{Event, Kind, LEAST_INITIAL_NAME, MAX_RING, MAX_THREADS, What};
pub use history_merge::{
    History, HistoryBuilder, HistoryFault, OpId, OpKind, Operation, Operations, history,
    history_from,
};
pub use history_text::{
    MemorySource, TextFault, TextReader, TextSink, TextSource, Version, Watched, WriteFault,
    read_history, read_verdict, write_history, write_shown, write_verdict,
};
pub use queue_interface::{AnsweredDeq, AnsweredEnq, AskDeq, AskEnq, TestQueue};
pub use stress_run::{
    MAX_OPERATIONS, MAX_THREAD_OPERATIONS, MAX_TRIES, MAX_WORKERS, Plan, Recorded, RunFault, run,
    run_from,
};
pub use verdicts::{
    ClaimLine, Claimed, Verdict, ViolationKind, claim, decide, decide_par, shrink, verify,
};
