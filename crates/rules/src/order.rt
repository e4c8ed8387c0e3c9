// What an accepted body asks for.
ghost use Rattle.rules.specs.Fits.{FitAccepted, FitAccepted-prop};

use crate::rule::Act;
use image::Cell;

// How many data bytes the reply echoes, what is done, and with which stretch; and the body, without its checksum, which all three fit: whoever is given
// an order can carry it out.
#[derive(Clone, Copy)]
pub struct Order<'a> {
    pub echo: usize,
    pub act: Act,
    pub cell: Cell,
    pub body: &'a [u8],
    pub ghost fits: { FitAccepted echo act cell body.now } by { FitAccepted-prop echo act cell body.now },
}
