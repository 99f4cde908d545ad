// Calls from call lines: the numbers of a line become the arguments of the call that its row names. A number that is too large for
// its parameter becomes the parameter's largest, which the call refuses by the same number.
#![tactic(auto)]

mod messages;
mod scrubbing;
mod setup;

ghost use Rattle.std.specs.Prelude.{IfOk};
ghost use Rattle.starts.specs.Starts.{IsStarted};

use driver::Call;
use messages::header_at;
pub use messages::header_of;
use spoken::{Arguments, CallName, Fault};

// The buffer that is lent to a RAM read, a peek and a get.
pub const ROOM: usize = 2048;

// A part that is longer than the RAM is refused whatever buffer is lent, and by its range.
fn read_call(a: &Arguments<'_>) -> Call
    ensures { IsStarted result }
{
    let n = a.number(1) as usize;
    driver::read_ram(a.word(0), n.max(ROOM), 0, n)
}

fn unchecked_call(a: &Arguments<'_>) -> Call
    ensures { IsStarted result }
{
    driver::queue_push_unchecked(header_at(a, 0), a.word(2), a.bytes())
}

// The call of this name. A scrub starts at the place.
pub fn start(name: CallName, a: &Arguments<'_>, place: usize) -> Call
    ensures { IsStarted result }
{
    match name {
        CallName::Reset => driver::reset(),
        CallName::GetOpMode => driver::get_op_mode(),
        CallName::ReadRegister => driver::read_register(a.word(0)),
        CallName::CheckedRead => driver::checked_read(a.word(0)),
        CallName::WriteRegister => driver::write_register(a.word(0), a.word(1)),
        CallName::VerifyLong => driver::verify_long(),
        CallName::ReadRam => read_call(a),
        CallName::WriteRam => driver::write_ram(a.word(0), a.bytes().len()),
        CallName::Verify => driver::verify(),
        CallName::ModifyRegister => driver::modify_register(a.word(0), a.word(1), a.word(2)),
        CallName::SetOpMode => driver::set_op_mode(a.word(0)),
        CallName::ConfigureOsc => setup::oscillator_call(a),
        CallName::ConfigureIo => setup::io_call(a),
        CallName::ConfigureBitTiming => driver::configure_bit_timing(setup::bit_time(a, 0)),
        CallName::Configure => setup::configure_call(a),
        CallName::ConfigureTxFifo => setup::tx_call(a),
        CallName::ConfigureRxFifo => setup::rx_call(a),
        CallName::DisableFilter => driver::disable_filter(a.word(0)),
        CallName::ConfigureFilter => setup::filter_call(a),
        CallName::Request => driver::request(a.word(0)),
        CallName::Push => driver::push(a.word(0), header_at(a, 1), a.word(3), a.bytes()),
        CallName::Transmit => driver::transmit(a.word(0), header_at(a, 1), a.word(3), a.bytes()),
        CallName::HasNext => driver::has_next(a.word(0)),
        CallName::Peek => driver::peek(a.word(0), ROOM),
        CallName::Get => driver::get(a.word(0), ROOM),
        CallName::Scrub => scrubbing::scrub_call(a, place),
        CallName::DisableTxQueue => driver::configure_tx_queue(None),
        CallName::ConfigureTxQueue => setup::queue_call(a),
        CallName::QueuePush => driver::queue_push(header_at(a, 0), a.word(2), a.bytes()),
        CallName::QueuePushUnchecked => unchecked_call(a),
        CallName::QueueRequest => driver::queue_request(),
    }
}

// The call of a line, started.
pub fn call_of(line: &[u8], place: usize) -> Result<Call, Fault>
    ensures { IfOk result IsStarted }
{
    let mut lent = [0u8; 64];
    let mut a = Arguments::new(&mut lent);
    let name = spoken::understood(line, &mut a)?;
    Ok(start(name, &a, place))
}
