// Which filter takes a frame: one filter and one identifier, the match word, the lowest filter that matches.
#![tactic(auto)]

ghost use Rattle.std.specs.Prelude.{◌≡◌};
ghost use Rattle.filters.specs.Filters.{agrees, kind_agrees, id_agrees, matches, control_at, target_of, match_word, filter_of};

use filter::{FilterControl, FilterMask, FilterObject};

// A frame's identifier, as the filters compare it.
#[derive(Clone, Copy)]
pub struct Identifier {
    pub extended: bool,
    pub sid: u32,
    pub eid: u32,
}

#[tactic(auto, unfolding(crate::specs::Filters::agrees))]
fn agreeing(id: u32, object: u32, mask: u32) -> bool
    ensures { result ≡ agrees id object mask }
{
    (id ^ object) & mask == 0
}

#[tactic(auto, unfolding(crate::specs::Filters::kind_agrees))]
fn kind_agrees(object: u32, mask: u32, extended: bool) -> bool
    ensures { result ≡ kind_agrees object mask extended }
{
    !FilterMask(mask).mide() || FilterObject(object).exide() == extended
}

// For a standard frame EID is not compared.
#[tactic(auto, unfolding(crate::specs::Filters::id_agrees))]
fn id_agrees(object: u32, mask: u32, id: Identifier) -> bool
    ensures { result ≡ id_agrees object mask id.extended id.sid id.eid }
{
    let o = FilterObject(object);
    let m = FilterMask(mask);
    agreeing(id.sid, o.sid(), m.msid()) && (!id.extended || agreeing(id.eid, o.eid(), m.meid()))
}

// One filter and one identifier, of both kinds.
#[tactic(auto, unfolding(crate::specs::Filters::matches))]
pub fn matching(enabled: bool, object: u32, mask: u32, id: Identifier) -> bool
    ensures { result ≡ matches enabled object mask id.extended id.sid id.eid }
{
    enabled && kind_agrees(object, mask, id.extended) && id_agrees(object, mask, id)
}

// The words of all filters.
#[derive(Clone, Copy)]
pub struct Filters<'a> {
    pub control: &'a [u32; 8],
    pub object: &'a [u32; 32],
    pub mask: &'a [u32; 32],
}

// The control word that filter f has a byte of; of a filter that there is not, 0.
fn control_at(control: &[u32; 8], f: u8) -> FilterControl
    ensures { result.0 ≡ control_at control.now f }
{
    FilterControl(control.get((f / 4) as usize).copied().unwrap_or(0))
}

// The FIFO that filter f gives its frames to.
pub fn target_of(control: &[u32; 8], f: u8) -> u32
    ensures { result ≡ target_of control.now f }
{
    control_at(control, f).target(f)
}

impl Filters<'_> {
    // The FIFO that filter f gives its frames to.
    pub fn target_of(self, f: u8) -> u32
        ensures { result ≡ target_of self.entry.control.now f }
    {
        target_of(self.control, f)
    }

    // Bit f is filter f.
    pub fn match_word(self, id: Identifier) -> u32
        ensures { let s = self.entry in result ≡ match_word s.control.now s.object.now s.mask.now id.extended id.sid id.eid }
    {
        let mut w: u32 = 0;
        for f in 0..32u8 {
            let enabled = control_at(self.control, f).enabled(f);
            let i = f as usize;
            if matching(enabled, self.object[i], self.mask[i], id) {
                w |= 1 << f;
            }
        }
        w
    }

    // The lowest-numbered filter that matches, 32 for none.
    pub fn lowest(self, id: Identifier) -> u32
        ensures { let s = self.entry in result ≡ filter_of s.control.now s.object.now s.mask.now id.extended id.sid id.eid }
    {
        self.match_word(id).trailing_zeros()
    }
}
