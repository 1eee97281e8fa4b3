// The log of what can be undone and done again, in lent words: a head of sixteen words, then the words of the entries, the oldest first.
// Functions over the words and no struct with the limit and `Keeps` in it: steps and `push` ask for a log of some limit, which a value would have to name; `behind`, `ahead` and `clear` ask for none.
ghost use Rattle.std.specs.Prelude.{◌≡◌, ℕ, ◌+◌, ◌-◌, ◌*◌, ◌<◌, ◌≤◌, List, [], ◌++◌, length, drop, replicate, slice_index};
ghost use Rattle.history.specs.Entry.{Entry};
ghost use Rattle.history.specs.Log.{Log, Keeps, SomeLog, StepsBack, StepsAhead, Inside, Drops, ForgetsOldest, Forgets, Stays, Room, MakesRoom, CanPush, Pushes, WrittenKeeps, WrittenKeepsRoom, RoomPushes, end_of};

// How many words the head has. The contracts and the specs have the number itself.
const STATE: usize = 16;

// The head. Start, cursor and end are counted from the word after it on.
#[derive(Clone, Copy, Debug, PartialEq, Eq, Hash)]
struct State {
    start: u32,
    cursor: u32,
    end: u32,
    // how many entries there are behind the cursor, and ahead of it
    behind: u32,
    ahead: u32,
    // what those behind count together, and those ahead
    done: u32,
    undone: u32,
}

impl State {
    ghost use Rattle.history.specs.Log.{Headed};

    fn read(u: &[u32]) -> State
        requires { 16 ≤ length u.now }
        ensures { Headed u.now result }
    {
        let [start, cursor, end, behind, ahead, done, undone, ..] = *u else {
            unreachable!()
        };
        State {
            start,
            cursor,
            end,
            behind,
            ahead,
            done,
            undone,
        }
    }

    fn write(self, u: &mut [u32])
        requires { 16 ≤ length u.old }
        ensures head { Headed u.new self }
        ensures rest { drop 7 u.new ≡ drop 7 u.old }
    {
        u[..7].copy_from_slice(&[
            self.start,
            self.cursor,
            self.end,
            self.behind,
            self.ahead,
            self.done,
            self.undone,
        ]);
    }
}

// How many entries can be undone. This and the next are two functions, as a side in a parameter would say less than the two names.
pub fn behind(u: &[u32]) -> usize
    requires { 16 ≤ length u.now }
    ensures word { result ≡ slice_index u.now 3 }
    ensures many { (limit : ℕ) (back ahead : List Entry) → Log u.now limit back ahead → result ≡ length back }
{
    State::read(u).behind as usize
}

// How many entries can be done again.
pub fn ahead(u: &[u32]) -> usize
    requires { 16 ≤ length u.now }
    ensures word { result ≡ slice_index u.now 4 }
    ensures many { (limit : ℕ) (back ahead : List Entry) → Log u.now limit back ahead → result ≡ length ahead }
{
    State::read(u).ahead as usize
}

// Steps back over the latest entry behind the cursor, and tells where it stands.
// (As `behind` and `ahead`: two functions, as their contracts name different lists.)
pub fn step_back(u: &mut [u32]) -> usize
    requires log { SomeLog u.old }
    requires more { 0 < slice_index u.old 3 }
    ensures steps { StepsBack u.old u.new result }
    ensures keeps { (limit : ℕ) → Keeps u.old limit → Keeps u.new limit }
    ensures inside { Inside u.new result }
    ensures rest { drop 7 u.new ≡ drop 7 u.old }
{
    let log = State::read(u);
    // An entry's size and count by index, here and below: `read_head` would make a whole head for one or two of its words.
    let size = u[STATE - 1 + log.cursor as usize];
    let cursor = log.cursor - size;
    let at = STATE + cursor as usize;
    let count = u[at + 1];
    let state = State {
        cursor,
        behind: log.behind - 1,
        ahead: log.ahead + 1,
        done: log.done - count,
        undone: log.undone + count,
        ..log
    };
    state.write(u);
    at
}

// Steps ahead over the entry at the cursor, and tells where it stands.
pub fn step_ahead(u: &mut [u32]) -> usize
    requires log { SomeLog u.old }
    requires more { 0 < slice_index u.old 4 }
    ensures steps { StepsAhead u.old u.new result }
    ensures keeps { (limit : ℕ) → Keeps u.old limit → Keeps u.new limit }
    ensures inside { Inside u.new result }
    ensures rest { drop 7 u.new ≡ drop 7 u.old }
{
    let log = State::read(u);
    let at = STATE + log.cursor as usize;
    let size = u[at];
    let count = u[at + 1];
    let state = State {
        cursor: log.cursor + size,
        behind: log.behind + 1,
        ahead: log.ahead - 1,
        done: log.done + count,
        undone: log.undone - count,
        ..log
    };
    state.write(u);
    at
}

// Empties the log: all its words are 0.
pub fn clear(u: &mut [u32], limit: u32)
    requires low { limit ≤ 1000000 }
    requires long { 16 + 16 * limit ≤ length u.old }
    ensures words { u.new ≡ replicate (16 + 16 * limit) 0 ++ drop (16 + 16 * limit) u.old }
    ensures log { Log u.new limit [] [] }
{
    let n = STATE + 16 * limit as usize;
    u[..n].fill(0);
}

// Drops what could be done again.
fn drop_ahead(u: &mut [u32])
    requires { SomeLog u.old }
    ensures drops { Drops u.old u.new }
    ensures none { slice_index u.new 4 ≡ 0 }
    ensures rest { drop 7 u.new ≡ drop 7 u.old }
{
    let log = State::read(u);
    let state = State {
        end: log.cursor,
        ahead: 0,
        undone: 0,
        ..log
    };
    state.write(u);
}

// Forgets the oldest entry behind the cursor.
fn forget_oldest(u: &mut [u32])
    requires log { SomeLog u.old }
    requires more { 0 < slice_index u.old 5 }
    ensures forgets { ForgetsOldest u.old u.new }
    ensures fewer { slice_index u.new 3 < slice_index u.old 3 }
    ensures rest { drop 7 u.new ≡ drop 7 u.old }
{
    let log = State::read(u);
    let at = STATE + log.start as usize;
    let size = u[at];
    let count = u[at + 1];
    let state = State {
        start: log.start + size,
        behind: log.behind - 1,
        done: log.done - count,
        ..log
    };
    state.write(u);
}

// Forgets the oldest entries until those behind the cursor count at most `most` together.
fn forget(u: &mut [u32], most: u32)
    requires { SomeLog u.old }
    ensures forgets { Forgets u.old u.new most }
    ensures within { slice_index u.new 5 ≤ most }
    ensures rest { drop 7 u.new ≡ drop 7 u.old }
{
    // By hand, as how many are forgotten is told by what they count.
    while State::read(u).done > most {
        forget_oldest(u);
    }
}

// Moves the log's words to the front.
fn to_front(u: &mut [u32])
    requires { SomeLog u.old }
    ensures stays { Stays u.old u.new }
    ensures front { slice_index u.new 0 ≡ 0 }
    ensures rest { (n : ℕ) → end_of u.old ≤ n → drop n u.new ≡ drop n u.old }
{
    let log = State::read(u);
    let from = STATE + log.start as usize;
    let to = STATE + log.end as usize;
    u.copy_within(from..to, STATE);
    let state = State {
        start: 0,
        cursor: log.cursor - log.start,
        end: log.end - log.start,
        ..log
    };
    state.write(u);
}

// Where the words of an entry that counts `count` can be written: after the last entry, if need be after the log was moved to the front.
fn room_for(u: &mut [u32], limit: u32, count: u32) -> usize
    requires log { Keeps u.old limit }
    requires none { slice_index u.old 4 ≡ 0 }
    requires within { slice_index u.old 5 + count ≤ limit }
    ensures stays { Stays u.old u.new }
    ensures room { Room u.new limit count result }
    ensures rest { drop (16 + 16 * limit) u.new ≡ drop (16 + 16 * limit) u.old }
{
    let end = STATE + State::read(u).end as usize;
    if end + 8 * count as usize <= STATE + 16 * limit as usize {
        return end;
    }
    to_front(u);
    STATE + State::read(u).end as usize
}

// Makes room for a new entry that counts `count`: drops what could be done again, and forgets the oldest until the new one is within the limit.
// Tells where its words are to be written; or, where it alone counts more than the limit, forgets all, and it is not kept.
pub fn make_room(u: &mut [u32], limit: u32, count: u32) -> Option<usize>
    requires { Keeps u.old limit }
    ensures room { MakesRoom u.old u.new limit count result }
    ensures rest { drop (16 + 16 * limit) u.new ≡ drop (16 + 16 * limit) u.old }
{
    drop_ahead(u);
    if count > limit {
        forget(u, 0);
        return None;
    }
    forget(u, limit - count);
    Some(room_for(u, limit, count))
}

// Adds the entry whose words stand at the cursor: `size` words that count `count`.
pub fn push(u: &mut [u32], size: u32, count: u32)
    requires { CanPush u.old size count }
    ensures pushes { Pushes u.old u.new size count }
    ensures rest { drop 7 u.new ≡ drop 7 u.old }
{
    let log = State::read(u);
    let state = State {
        cursor: log.cursor + size,
        end: log.cursor + size,
        behind: log.behind + 1,
        done: log.done + count,
        ..log
    };
    state.write(u);
}

// Whoever writes only from the end on keeps the log and the room in it, and can push what is written there.
pub fn written_keeps()
    ensures log { WrittenKeeps }
    ensures room { WrittenKeepsRoom }
    ensures pushes { RoomPushes }
{}
