ghost use Rattle.std.specs.Prelude.{length};
ghost use Rattle.matching.specs.Steps.Settling.{Ready};

use pattern::Pattern;

// What a search looks for and where: a pattern that the tests passed, and a text, which is read from its end where mirrored. (A flag, and
// no type parameter: only `word`, `faced` and `store` ask it, and a parameter would go through every function here, which is no plainer.)
#[derive(Clone, Copy)]
pub(crate) struct Side<'a> {
    pub(crate) pattern: &'a Pattern,
    pub(crate) text: &'a [u16],
    pub(crate) mirrored: bool,
    ghost ready: { Ready pattern.now (length text.now) },
}
