ghost use Rattle.std.specs.Prelude.{◌≡◌};
ghost use Rattle.cursors.specs.Machine.{next_served, rewound};
ghost use Rattle.bindings.specs.Answers.{of_served, of_rewound};

use crate::answers::ServedTo;
use cursors::Cursors;
use pattern::Pattern;

// The next occurrence for the client.
#[unsafe(no_mangle)]
pub extern "C" fn bedbloomer_next(
    cursors: Cursors,
    client: usize,
    pattern: Pattern,
    text: &[u16],
) -> ServedTo
    ensures { result ≡ of_served (next_served cursors client pattern text.now) }
{
    let mut after = cursors;
    let found = after.next(client, pattern, text);
    ServedTo::with(after, found.into())
}

// The client's marks set to 0, and its number as it was.
#[unsafe(no_mangle)]
pub extern "C" fn bedbloomer_rewind(cursors: Cursors, client: usize) -> ServedTo
    ensures { result ≡ of_rewound (rewound cursors client) }
{
    let mut after = cursors;
    let found = after.rewind(client).map(|()| None);
    ServedTo::with(after, found.into())
}
