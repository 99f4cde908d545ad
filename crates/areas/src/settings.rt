// What the calls of a FIFO, the transmit queue and a filter are given. A number is any number: one that is wider than its field is
// refused (24).
ghost use Rattle.std.specs.Prelude.{◌≡◌};
ghost use Rattle.areas.specs.Areas.{as_fifo};

// Fields of CiFIFOCON that a FIFO which sends has.
#[derive(Clone, Copy)]
pub struct TxFifo {
    pub txpri: u32,
    pub txat: u32,
    pub rtren: bool,
    pub txatie: bool,
    pub empty: bool,
    pub half: bool,
    pub notfull: bool,
}

// Fields of CiFIFOCON that a FIFO which receives has.
#[derive(Clone, Copy)]
pub struct RxFifo {
    pub rxtsen: bool,
    pub rxovie: bool,
    pub full: bool,
    pub half: bool,
    pub notempty: bool,
}

#[derive(Clone, Copy)]
pub enum FifoMode {
    Transmit(TxFifo),
    Receive(RxFifo),
}

// `size`: how many messages; `plsize`: PLSIZE, 0 to 7.
#[derive(Clone, Copy)]
pub struct FifoConfiguration {
    pub size: u32,
    pub plsize: u32,
    pub mode: FifoMode,
}

// Fields of the queue's control; `size` and `plsize` as of a FIFO.
#[derive(Clone, Copy)]
pub struct TxQueueConfiguration {
    pub size: u32,
    pub plsize: u32,
    pub txpri: u32,
    pub txat: u32,
    pub txatie: bool,
    pub empty: bool,
    pub notfull: bool,
}

// The FIFO that sends with these settings.
impl From<TxQueueConfiguration> for FifoConfiguration {
    ghost from_gives = { λ c f. f ≡ as_fifo c };

    fn from(c: TxQueueConfiguration) -> FifoConfiguration {
        FifoConfiguration {
            size: c.size,
            plsize: c.plsize,
            mode: FifoMode::Transmit(TxFifo {
                txpri: c.txpri,
                txat: c.txat,
                rtren: false,
                txatie: c.txatie,
                empty: c.empty,
                half: false,
                notfull: c.notfull,
            }),
        }
    }
}

#[derive(Clone, Copy)]
pub struct Identifier {
    pub extended: bool,
    pub id: u32,
}

// Which frames a filter takes.
#[derive(Clone, Copy)]
pub enum FilterMode {
    Standard,
    Extended,
    Both,
}

// A filter gives what its object and mask match to a FIFO.
#[derive(Clone, Copy)]
pub struct FilterConfiguration {
    pub fifo: u32,
    pub mode: FilterMode,
    pub object: Identifier,
    pub mask: Identifier,
}
