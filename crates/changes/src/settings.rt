// What a configuration call is given. A number is any number: one that is wider than its field is refused (24).

// `divide`: the system clock is half of the oscillator's or the PLL's.
#[derive(Clone, Copy)]
pub struct OscillatorConfiguration {
    pub pll: bool,
    pub divide: bool,
}

// The fields of IOCON that a call sets.
#[derive(Clone, Copy)]
pub struct IoConfiguration {
    pub xstbyen: bool,
    pub txcanod: bool,
    pub sof: bool,
    pub intod: bool,
}

// Fields of CiNBTCFG.
#[derive(Clone, Copy)]
pub struct NominalBitTime {
    pub brp: u32,
    pub tseg1: u32,
    pub tseg2: u32,
    pub sjw: u32,
}

// Fields of CiDBTCFG, and TDCO of CiTDC, a number from -64 to 63.
#[derive(Clone, Copy)]
pub struct DataBitTime {
    pub brp: u32,
    pub tseg1: u32,
    pub tseg2: u32,
    pub sjw: u32,
    pub tdco: i32,
}

#[derive(Clone, Copy)]
pub struct BitTimeConfiguration {
    pub nominal: NominalBitTime,
    pub data: DataBitTime,
}

// `counter`: the time base counter; `dncnt`: the data bits that filters look at, 0 to leave them as they are; the others:
// which interrupts are enabled beside those of transmit and receive.
#[derive(Clone, Copy)]
pub struct Settings {
    pub oscillator: OscillatorConfiguration,
    pub io: IoConfiguration,
    pub bittime: BitTimeConfiguration,
    pub counter: bool,
    pub dncnt: u32,
    pub canerrors: bool,
    pub spierror: bool,
    pub eccerror: bool,
}
