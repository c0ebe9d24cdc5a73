ghost use Rattle.std.specs.Prelude.{◌≡◌, ◌+◌, ◌-◌, ◌*◌, ◌<◌, ◌≤◌, min, length, slice_index};
ghost use Rattle.counting.specs.Steps.Fits.{part};
ghost use Rattle.counting.specs.Steps.Inputs.{Input};
ghost use Rattle.counting.specs.Steps.Plans.{Plan, PlanOf, sentence_at, start_at};
ghost use Rattle.matching.specs.Occurrence.{plain};

use crate::fits::tabulate;
use crate::gaps::Outline;
use crate::sentences::horizons;
use crate::window::Window;
use basics::widen;
use pattern::Pattern;

// A pattern and a text, as the runs over the text's places are lent them.
// That they are those of an accepted pattern, `Plan`, is no ghost field: it brings the pattern and the view, which stand in no field here and
// which the promises of the runs name. A ghost field tells only that there are some, so the promises would still take a `Plan`: no plainer.
#[derive(Clone, Copy)]
pub(crate) struct Tables<'a> {
    // how many slots the pattern has, and how many places the text
    pub slots: usize,
    pub places: usize,
    // the pattern's gaps and spans
    pub outline: Outline,
    // which slot fits which place, 20000 entries a slot
    pub fits: &'a [u8; 320000],
    // how far a row from each place can go
    pub lasts: &'a [u16; 20000],
}

impl<'a> Tables<'a> {
    // The tables of a pattern and a text, written to memory that is lent for them. Inlined, since the tables are filled sooner where it is
    // the caller's own: that took 4.0 million off the 463.3 million instructions of counting_cases.
    #[inline(always)]
    pub(crate) fn of(
        pattern: &Pattern,
        text: &[u16],
        fits: &'a mut [u8; 320000],
        lasts: &'a mut [u16; 20000],
    ) -> Tables<'a>
        requires { Input pattern.now (plain pattern.now text.now) }
        ensures { PlanOf pattern.now (plain pattern.now text.now) result }
    {
        let n = text.len();
        tabulate(pattern, text, fits);
        horizons(text, lasts);
        Tables {
            slots: pattern.count,
            places: n,
            outline: Outline::of(pattern, n),
            fits,
            lasts,
        }
    }

    // Which of n places from an index on a slot fits.
    pub(crate) fn fits_of(&self, j: usize, first: usize, n: usize) -> &[u8]
        requires { j * 20000 + first + n ≤ length self.now.fits.now }
        ensures { result.now ≡ part self.now.fits.now (j * 20000 + first) n }
    {
        // as a slice, of which a part can be lent
        let table = self.fits;
        let fits: &[u8] = table;
        let at = j * 20000 + first;
        &fits[at..at + n]
    }

    // The places from an index on to where its sentence ends.
    pub(crate) fn sentence(&self, i: usize) -> Window
        requires plan { Plan self.now }
        requires inside { i < self.now.places }
        ensures { result ≡ sentence_at i (slice_index self.now.lasts.now i) }
    {
        let places = widen(self.lasts[i]) - i;
        Window {
            first: i,
            places,
            starts: places,
            from: 0,
        }
    }

    // The places that a row can span which starts at an index, in its sentence.
    pub(crate) fn start(&self, i: usize) -> Window
        requires plan { Plan self.now }
        requires inside { i < self.now.places }
        ensures { result ≡ start_at i (min self.now.outline.span (slice_index self.now.lasts.now i - i)) (i + self.now.outline.least) }
    {
        let rest = widen(self.lasts[i]) - i;
        Window {
            first: i,
            places: self.outline.span.min(rest),
            starts: 1,
            from: i + self.outline.least,
        }
    }
}
