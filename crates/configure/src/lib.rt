// The calls that are plans, a list of changes, polls and echoes: modify, request, the short echo test and those that set the chip
// up. Each is a few numbers; four of them put words into the body that they are lent.
#![tactic(auto)]

mod calls;
mod listed;
mod machine;
mod moves;
mod planned;
mod requesting;
mod turns;
mod whole;

pub use areas::{
    FifoConfiguration, FifoMode, FilterConfiguration, FilterMode, Identifier, RxFifo, TxFifo,
    TxQueueConfiguration,
};
pub use calls::{
    configure_bit_timing, configure_fifo, configure_filter, configure_io, configure_osc,
    configure_tx_queue, disable_filter, modify, set_op_mode, verify,
};
pub use changes::{
    BitTimeConfiguration, DataBitTime, IoConfiguration, NominalBitTime, OscillatorConfiguration,
    Settings,
};
pub use machine::{plan_ask, plan_outcome, plan_step};
pub use planned::{PlanKind, PlanNumbers, PlanStage};
pub use requesting::{queue_request, request};
pub use turns::plan_turns;
pub use whole::configure_all;
