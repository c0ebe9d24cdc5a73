// Four clients that are served occurrences one after the other, each from where it stands (document 01: the editors' desk; document 02, Job 6).
#![tactic(auto)]

ghost use Rattle.std.specs.Prelude.{◌≡◌, ◌≤◌, ◌<◌, length, take};
ghost use Rattle.pattern.specs.Tests.{input_verdict};
ghost use Rattle.matching.specs.Answers.{searched};
ghost use Rattle.cursors.specs.Machine.{fresh, client_of, with_client, moved, restarted, client_verdict, next_verdict, next_row, next_served, rewound};

use basics::put_row;
use matching::first_after;
use pattern::{Pattern, Refusal};

// One client: its marks, one for each slot that a pattern may have, and how many occurrences it was served (document 01: handed out). C has
// the same struct, so it keeps sixteen marks, of which as many count as the pattern has slots.
#[repr(C)]
#[derive(Clone, Copy)]
pub struct Client {
    pub marks: [u16; 16],
    pub served: usize,
}

// Clients 1 to 4.
#[repr(C)]
#[derive(Clone, Copy)]
pub struct Cursors {
    pub clients: [Client; 4],
}

// Test 14.
#[tactic(auto, unfolding(crate::specs::Machine::client_verdict))]
fn client_verdict(client: usize) -> Result<(), Refusal>
    ensures { result ≡ client_verdict client }
{
    if (1..=Cursors::CLIENTS).contains(&client) {
        return Ok(());
    }
    Err(Refusal::Client)
}

impl Client {
    // The first occurrence past the client's first marks, as many as the pattern has slots.
    #[tactic(auto, using(crate::proofs::Serving::few_slots, crate::proofs::Serving::sought))]
    fn seek(&self, pattern: Pattern, text: &[u16]) -> Result<Option<[u16; 16]>, Refusal>
        requires { input_verdict pattern (length text.now) ≡ Ok tt }
        ensures { result ≡ Ok (searched (next_row self.now pattern text.now)) }
    {
        first_after(pattern, text, &self.marks[..pattern.count])
    }

    // The client once it was served the first m of the places.
    fn moved(mut self, row: &[u16; 16], m: usize) -> Self
        requires { (m ≤ 16) × (self.served < 500) }
        ensures { result ≡ moved (take m row.now) self }
    {
        put_row(&mut self.marks, row, m);
        self.served += 1;
        self
    }

    // The client with its marks set to 0, and its number as it was.
    fn restarted(mut self) -> Self
        ensures { result ≡ restarted self }
    {
        self.marks = [0; 16];
        self
    }
}

impl Cursors {
    // How many clients there are (document 01: editors); they are counted from 1.
    pub const CLIENTS: usize = 4;

    // From this number on a client is served nothing.
    pub const SERVED: usize = 500;

    // The fresh state.
    pub fn new() -> Self
        ensures { result ≡ fresh }
    {
        let start = Client {
            marks: [0u16; 16],
            served: 0,
        };
        Cursors {
            clients: [start; 4],
        }
    }

    // The client with this number.
    fn client_of(&self, client: usize) -> Client
        requires { (1 ≤ client) × (client ≤ 4) }
        ensures { result ≡ client_of self.now client }
    {
        self.clients[client - 1]
    }

    // Puts this in the client's place.
    fn put_client(&mut self, client: usize, after: Client)
        requires { (1 ≤ client) × (client ≤ 4) }
        ensures { self.new ≡ with_client self.old client after }
    {
        let k = client - 1;
        self.clients[k] = after;
    }

    // Tests 1 to 5, 16, 6, 14 and 15, of a client's call with a pattern and a text of so many words.
    #[tactic(auto, using(crate::proofs::Serving::in_range), unfolding(crate::specs::Machine::next_verdict))]
    fn next_verdict(&self, client: usize, pattern: &Pattern, words: usize) -> Result<(), Refusal>
        ensures { result ≡ next_verdict pattern.now words client (client_of self.now client).served }
    {
        pattern.check_with(words)?;
        client_verdict(client)?;
        let calling = self.client_of(client);
        if Cursors::SERVED <= calling.served {
            return Err(Refusal::Served);
        }
        Ok(())
    }

    // The next occurrence for the client: the first past its marks, to which they then move; its number is then one more. On a refusal, and
    // where there is none, the state stays.
    #[tactic(auto, using(crate::proofs::Serving::next_range, crate::proofs::Serving::next_input, crate::proofs::Serving::next_room), unfolding(crate::specs::Machine::next_served))]
    pub fn next(
        &mut self,
        client: usize,
        pattern: Pattern,
        text: &[u16],
    ) -> Result<Option<[u16; 16]>, Refusal>
        ensures answer { result ≡ (next_served self.old client pattern text.now).answer }
        ensures state { self.new ≡ (next_served self.old client pattern text.now).cursors }
    {
        self.next_verdict(client, &pattern, text.len())?;
        let asking = self.client_of(client);
        let Some(row) = asking.seek(pattern, text)? else {
            return Ok(None);
        };
        self.put_client(client, asking.moved(&row, pattern.count));
        Ok(Some(row))
    }

    // The client's marks set to 0, and its number as it was. On a refusal the state stays.
    #[tactic(auto, using(crate::proofs::Serving::in_range), unfolding(crate::specs::Machine::rewound))]
    pub fn rewind(&mut self, client: usize) -> Result<(), Refusal>
        ensures answer { result ≡ (rewound self.old client).verdict }
        ensures state { self.new ≡ (rewound self.old client).cursors }
    {
        client_verdict(client)?;
        let before = self.client_of(client);
        self.put_client(client, before.restarted());
        Ok(())
    }
}
