// Which calls of a line are refused, on plain numbers: every kind of sample shares it.
#![tactic(auto)]

ghost use Rattle.std.specs.Prelude.{◌≡◌, [], ◌∷◌, ◌<◌, IfOk};
ghost use Rattle.morph.specs.Order.{reach_back, ahead_of, kind_of};
ghost use Rattle.morph.specs.Numbers.{is_extent_over, outside};
ghost use Rattle.morph.specs.Refusals.{refusal_number, said};
ghost use Rattle.line_judge.specs.Numbers.{window_of, line_start_number, broken, line_read_number, line_drain_number, line_read_out_number, place_of};

use morph::{Kind, Refusal};

// ---- the window

// How far the window reaches back.
pub fn back(kind: Kind, left: u8, right: u8) -> usize
    ensures { (result ≡ reach_back kind left right) × (result < 256) }
{
    match kind {
        Kind::Erosion => usize::from(left),
        Kind::Dilation => usize::from(right),
    }
}

// How far the window reaches ahead.
pub fn ahead(kind: Kind, left: u8, right: u8) -> usize
    ensures { (result ≡ ahead_of kind left right) × (result < 256) }
{
    match kind {
        Kind::Erosion => usize::from(right),
        Kind::Dilation => usize::from(left),
    }
}

// ---- the start

fn is_extent_over(left: u8, right: u8) -> bool
    ensures { result ≡ is_extent_over (left ∷ right ∷ []) }
{
    31 < left || 31 < right
}

fn is_off(pixels: usize) -> bool
    ensures { result ≡ outside 65535 pixels }
{
    pixels == 0 || 65535 < pixels
}

// The kind of a number: 0 is erosion, and every other dilation. It stands beside `Kind::try_from`, since it cannot fail.
pub fn kind_of(kind: u8) -> Kind
    ensures { result ≡ kind_of kind }
{
    if kind == 0 {
        Kind::Erosion
    } else {
        Kind::Dilation
    }
}

// The kind of a line that is started so, or why it is refused.
pub fn start(kind: u8, left: u8, right: u8, pixels: usize) -> Result<Kind, Refusal>
    ensures number { said result ≡ line_start_number kind left right pixels }
    ensures kind { IfOk result (λ k. k ≡ kind_of kind) }
{
    let kind = Kind::try_from(kind)?;
    if is_extent_over(left, right) {
        return Err(Refusal::Extent);
    }
    if is_off(pixels) {
        return Err(Refusal::Size);
    }
    Ok(kind)
}

// ---- a line between two steps

// What a line's calls are judged by: its kind and extents, its N, the steps done, and where its queue starts and how many entries it has.
#[derive(Clone, Copy, Debug, PartialEq, Eq)]
pub struct Shape {
    pub kind: Kind,
    pub left: u8,
    pub right: u8,
    pub pixels: usize,
    pub step: usize,
    pub start: usize,
    pub count: usize,
}

impl Shape {
    // How far the window reaches ahead.
    pub fn ahead(self) -> usize
        ensures { (result ≡ ahead_of self.kind self.left self.right) × (result < 256) }
    {
        ahead(self.kind, self.left, self.right)
    }

    // How many places the window has.
    pub fn window(self) -> usize
        ensures { (result ≡ window_of self.kind self.left self.right) × (result < 512) }
    {
        back(self.kind, self.left, self.right) + self.ahead() + 1
    }

    // Whether the line breaks rule 12.
    pub fn is_broken(self) -> bool
        ensures { result ≡ broken self.kind self.left self.right self.pixels self.step self.start self.count }
    {
        if is_extent_over(self.left, self.right) {
            return true;
        }
        if is_off(self.pixels) {
            return true;
        }
        if self.pixels + self.ahead() < self.step {
            return true;
        }
        if 63 <= self.start {
            return true;
        }
        self.window() < self.count
    }

    // A step that is offered a pixel, `good` telling whether the pixel is an accepted one.
    pub fn judge_read(self, good: bool) -> Result<(), Refusal>
        ensures { said result ≡ line_read_number self.kind self.left self.right self.pixels self.step self.start self.count good }
    {
        if self.is_broken() {
            return Err(Refusal::State);
        }
        if self.pixels <= self.step {
            return Err(Refusal::AllRead);
        }
        if !good {
            return Err(Refusal::NotFinite);
        }
        Ok(())
    }

    // A drain.
    pub fn judge_drain(self) -> Result<(), Refusal>
        ensures { said result ≡ line_drain_number self.kind self.left self.right self.pixels self.step self.start self.count }
    {
        if self.is_broken() {
            return Err(Refusal::State);
        }
        if self.step < self.pixels {
            return Err(Refusal::NoDrain);
        }
        if self.pixels + self.ahead() <= self.step {
            return Err(Refusal::NoDrain);
        }
        Ok(())
    }

    // A read-out.
    pub fn judge_read_out(self, place: usize) -> Result<(), Refusal>
        ensures { said result ≡ line_read_out_number self.kind self.left self.right self.pixels self.step self.start self.count place }
    {
        if self.is_broken() {
            return Err(Refusal::State);
        }
        if self.count <= place {
            return Err(Refusal::NotThere);
        }
        Ok(())
    }

    // The position that a refusal names.
    pub fn place(self, refusal: Refusal) -> usize
        ensures { result ≡ place_of (refusal_number refusal) self.step }
    {
        match refusal {
            Refusal::NotFinite => self.step,
            _ => 0,
        }
    }
}
