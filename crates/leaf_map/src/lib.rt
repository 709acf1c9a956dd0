// The state map (gc.rs): document 01, "Slots and growth": "The state map has two bits a slot, four slots a byte, lowest
// bits first: Free 0, Allocated 1, Used 2." The map is the lent bytes.
#![tactic(auto)]

ghost use Rattle.std.specs.Prelude.{◌≡◌, ◌*◌, ◌%◌, ◌/◌, ◌^◌, ◌<◌, eqb, length};
ghost use Rattle.rules.specs.Map.{Used, state_in, with_state, state_of, set_state, low_bits, set_low_bits};
ghost use Rattle.leaf_map.specs.States.{number_of};

// A slot's state. Two bits can also be 3, which no sound heap has.
#[derive(Clone, Copy, PartialEq, Eq)]
pub enum State {
    Free,
    Allocated,
    Used,
    Three,
}

impl State {
    // The state that the two lowest bits of a number say.
    pub fn of_bits(n: u8) -> State
        ensures { number_of result ≡ n % 4 }
    {
        match n % 4 {
            0 => State::Free,
            1 => State::Allocated,
            2 => State::Used,
            _ => State::Three,
        }
    }
}

impl From<State> for u8 {
    ghost from_gives = { λ s n. n ≡ number_of s };

    fn from(state: State) -> u8 {
        match state {
            State::Free => 0,
            State::Allocated => 1,
            State::Used => 2,
            State::Three => 3,
        }
    }
}

// The two bits at one of a byte's four places.
#[tactic(auto, using(rules::proofs::TwoBits::shifted))]
fn state_in(byte: u8, place: usize) -> State
    requires { place < 4 }
    ensures { number_of result ≡ state_in byte place }
{
    State::of_bits(byte >> (2 * place))
}

// The byte with these two bits at that place, and the others as they were.
fn with_state(byte: u8, place: usize, state: State) -> u8
    requires { place < 4 }
    ensures { result ≡ with_state byte place (number_of state) }
{
    let unit = 1u8 << (2 * place);
    let before = u8::from(state_in(byte, place));
    let after = u8::from(state);
    byte - before * unit + after * unit
}

// A slot's state; Free past the map's end.
#[tactic(auto, using(rules::proofs::TwoBits::state_past), unfolding(rules::specs::Map::state_of))]
pub fn get(map: &[u8], slot: usize) -> State
    ensures { number_of result ≡ state_of map.now slot }
{
    let at = slot / 4;
    if at < map.len() {
        state_in(map[at], slot % 4)
    } else {
        State::Free
    }
}

// Changes a slot's state, and no other's.
#[tactic(auto, unfolding(rules::specs::Map::set_state))]
pub fn set(map: &mut [u8], slot: usize, state: State)
    requires { slot / 4 < length map.old }
    ensures { map.new ≡ set_state map.old slot (number_of state) }
{
    let at = slot / 4;
    map[at] = with_state(map[at], slot % 4, state);
}

// Marks a slot as met by a collection.
pub fn mark(map: &mut [u8], slot: usize)
    requires { slot / 4 < length map.old }
    ensures { map.new ≡ set_state map.old slot Used }
{
    set(map, slot, State::Used);
}

pub fn is_marked(map: &[u8], slot: usize) -> bool
    ensures { result ≡ eqb (state_of map.now slot) Used }
{
    matches!(get(map, slot), State::Used)
}

// How many of a byte's four places have their low bit set.
#[tactic(auto, using(rules::proofs::TwoBits::masked_ones, rules::proofs::TwoBits::low_bits_small))]
fn low_bits(byte: u8) -> usize
    ensures { result ≡ low_bits byte }
{
    (byte & 0x55).count_ones() as usize
}

// "it is also counted from the map's set low bits". Four times the map's length must be a number.
pub fn used(map: &[u8]) -> usize
    requires { 4 * length map.now < 2 ^ 64 }
    ensures { result ≡ set_low_bits map.now }
{
    let mut n: usize = 0;
    for byte in map {
        n += low_bits(*byte);
    }
    n
}
