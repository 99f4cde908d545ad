// A frame arrives and the filters sort it.
ghost use Rattle.std.specs.Prelude.{◌≡◌, ◌≤◌, length};
ghost use Rattle.field.specs.Field.{Fits};
ghost use Rattle.header.specs.Header.{DLC, top_id};
ghost use Rattle.bus.specs.Sort.{filter_for, target_for, by_filter, unsorted, filtered, sort_of};

use crate::{Arrival, Delivered, Undelivered, arrival};
use configuration::CanControl;
use filters::{Filters, Identifier};
use header::Header;
use spi::Refusal;
use state::{Model, Setup};

// The FIFO and the filter that a frame was for; 0 where it was refused.
#[derive(Clone, Copy)]
pub struct Sorted {
    pub delivery: Result<(), Undelivered>,
    pub fifo: u32,
    pub filter: u32,
    pub model: Model,
}

fn unsorted(r: Refusal, m: Model) -> Sorted
    ensures { result ≡ unsorted r m }
{
    Sorted {
        delivery: Err(Undelivered::Refused(r)),
        fifo: 0,
        filter: 0,
        model: m,
    }
}

fn by_filter(d: Delivered, n: u32, f: u32) -> Sorted
    ensures { result ≡ by_filter d n f }
{
    Sorted {
        delivery: d.delivery,
        fifo: n,
        filter: f,
        model: d.model,
    }
}

fn filters_of(setup: &Setup) -> Filters<'_>
    ensures { (result.control.now ≡ setup.now.filter) × (result.object.now ≡ setup.now.object) × (result.mask.now ≡ setup.now.mask) }
{
    Filters {
        control: &setup.filter,
        object: &setup.object,
        mask: &setup.mask,
    }
}

fn filter_for(m: Model, h: Header) -> u32
    requires { h.id ≤ top_id h.extended }
    ensures { result ≡ filter_for m h }
{
    let id = Identifier {
        extended: h.extended,
        sid: header::sid_of(h.extended, h.id),
        eid: header::eid_of(h.extended, h.id),
    };
    filters_of(&m.setup).lowest(id)
}

fn target_for(m: Model, f: u8) -> u32
    ensures { result ≡ target_for m f }
{
    filters_of(&m.setup).target_of(f)
}

fn filtered(m: Model, a: Arrival<'_>) -> Sorted
    requires { (a.header.id ≤ top_id a.header.extended) × Fits DLC a.dlc × (length a.payload.now ≤ 64) }
    ensures { let f = a.entry in result ≡ filtered m f.dlc f.header f.time f.payload.now }
{
    if CanControl(m.setup.con).dncnt() != 0 {
        return unsorted(Refusal::DeviceNet, m);
    }
    let f = filter_for(m, a.header);
    if 32 <= f {
        return unsorted(Refusal::NoMatch, m);
    }
    let n = target_for(m, f as u8);
    by_filter(arrival::give(m, n as u8, f, a), n, f)
}

#[tactic(auto, unfolding(crate::specs::Sort::sort_of))]
pub fn sort(m: Model, a: Arrival<'_>) -> Sorted
    ensures { let f = a.entry in result ≡ sort_of m f.header f.dlc f.time f.payload.now }
{
    match message::check_arrival(a.header, a.dlc, a.payload.len()) {
        Ok(()) => filtered(m, a),
        Err(r) => unsorted(r, m),
    }
}
