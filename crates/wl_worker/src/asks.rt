//! Asks on their way to the signers, and their answers on the way back.

ghost use Rattle.std.specs.Prelude.{IfOk, IfSome};
ghost use Rattle.wl_selector.specs.Selectors.{sorted_texts};

use ask_mail::{Answered, AskQueue, Asked, Mailbox, Opened};
use std::alloc::Global;
use std::collections::VecDeque;
use std::sync::{Arc, Condvar, Mutex, Wait};
use wl_entry::{Ask, JwtToken, Voucher};
use wl_octets::{Memory, Octets};

/// For how many seconds asks fail at once after an exchange with a signer has ended by time.
const SILENCE: u64 = 5;

/// What becomes of an ask that has no answer in the mailbox.
#[derive(Clone, Copy, Debug, Drop, PartialEq, Eq)]
pub(crate) enum Missing {
    /// It waits, or is under way.
    Waits,
    /// The connection has no ask.
    NoAsk,
}

/// What becomes of an ask that is put.
#[derive(Clone, Copy, Debug, Drop, PartialEq, Eq)]
pub(crate) enum Putting {
    /// It waits.
    Done,
    /// Asks fail at once for now.
    Refused,
    /// Memory ran out.
    Memory,
}

/// What a signer is to do next.
pub(crate) enum Turn {
    /// This ask for a token.
    Ask(Asked),
    /// A ticket, if there is one.
    Ticket,
    /// There will be no more.
    Over,
}

/// The asks of one socket.
#[derive(Drop)]
struct Post {
    /// Those that wait.
    queue: AskQueue,
    /// How many are under way.
    under_way: u32,
    /// Whether the socket stands among those whose turn comes.
    in_turn: bool,
}

impl Post {
    fn start(alloc: Global) -> Post {
        Post {
            queue: AskQueue::empty(alloc),
            under_way: 0,
            in_turn: false,
        }
    }

    /// Whether a signer may take an ask of it, where so many at most are to be under way.
    fn is_ready(&self, most: u32) -> bool {
        self.under_way < most && !self.queue.is_empty()
    }

    /// Its oldest ask, where a signer may take one.
    fn take(&mut self, most: u32) -> Option<Asked> {
        if !self.is_ready(most) {
            return None;
        }
        let asked = self.queue.take()?;
        self.under_way = self.under_way.saturating_add(1);
        Some(asked)
    }
}

/// The asks of all sockets and the answers for all seats, as they stand under the lock.
#[derive(Drop)]
struct Posts<V: Voucher> {
    alloc: Global,
    /// By seat.
    mailboxes: Vec<Mailbox<V>>,
    /// By socket. One that is added while the agent runs is there from its first ask on.
    sockets: Vec<Post>,
    /// The sockets of which a signer may take an ask, each once, in their turn.
    turns: VecDeque<u32>,
    /// How many asks of one socket are under way at most.
    most: u32,
    /// The time, as it was last told.
    now: u64,
    /// Up to this second asks fail at once.
    silent_until: u64,
    /// Whether there may be a ticket that can be asked for.
    tickets: bool,
    over: bool,
}

impl<V: Voucher> Posts<V> {
    /// Whether a signer has something to do.
    fn is_ready(&self) -> bool {
        self.tickets || !self.turns.is_empty()
    }

    /// Has a socket wait for its turn, where a signer may take an ask of it.
    fn give_turn(&mut self, socket: u32) {
        let Some(post) = self.sockets.get_mut(socket as usize) else {
            return;
        };
        if post.in_turn || !post.is_ready(self.most) {
            return;
        }
        // There is room for all sockets, so that none is lost.
        post.in_turn = self.turns.push_back(socket).is_ok();
    }

    /// Has posts up to that of this socket, and room for all of them among the turns.
    fn make_posts(&mut self, socket: u32) -> Result<(), Memory> {
        let wanted = (socket as usize).saturating_add(1);
        if wanted <= self.sockets.len() {
            return Ok(());
        }
        self.turns.reserve(wanted.saturating_sub(self.turns.len()))?;
        for _ in self.sockets.len()..wanted {
            self.sockets.push(Post::start(self.alloc))?;
        }
        Ok(())
    }

    /// Puts an ask, whose answer is awaited then.
    fn put(&mut self, asked: Asked) -> Putting {
        if self.make_posts(asked.socket).is_err() {
            return Putting::Memory;
        }
        let Some(mailbox) = self.mailboxes.get_mut(asked.seat as usize) else {
            return Putting::Refused;
        };
        let Some(post) = self.sockets.get_mut(asked.socket as usize) else {
            return Putting::Refused;
        };
        let (socket, connection) = (asked.socket, asked.connection);
        if mailbox.await_one(connection, socket).is_err() {
            return Putting::Memory;
        }
        if post.queue.put(asked).is_err() {
            mailbox.forget(connection);
            return Putting::Memory;
        }
        self.give_turn(socket);
        Putting::Done
    }

    /// An ask that a signer may take: the oldest of a socket, each socket in its turn.
    fn take(&mut self) -> Option<Asked> {
        let socket = self.turns.pop_front()?;
        let post = self.sockets.get_mut(socket as usize)?;
        post.in_turn = false;
        let asked = post.take(self.most);
        self.give_turn(socket);
        asked
    }

    /// Gives up the ask of a connection of a seat.
    fn forget(&mut self, seat: u32, connection: u64) {
        let Some(mailbox) = self.mailboxes.get_mut(seat as usize) else {
            return;
        };
        let Some(socket) = mailbox.socket_of(connection) else {
            return;
        };
        mailbox.forget(connection);
        if let Some(post) = self.sockets.get_mut(socket as usize) {
            post.queue.forget(seat, connection);
        }
    }

    /// Puts an answer into the mailbox of its seat. It comes back where nobody awaits it any more.
    fn deliver(&mut self, letter: Answered<V>) -> Option<Answered<V>> {
        match self.mailboxes.get_mut(letter.seat() as usize) {
            Some(mailbox) => mailbox.put(letter),
            None => Some(letter),
        }
    }

    /// An ask of a socket is under way no more.
    fn came_back(&mut self, socket: u32) {
        if let Some(post) = self.sockets.get_mut(socket as usize) {
            post.under_way = post.under_way.saturating_sub(1);
        }
        self.give_turn(socket);
    }

    /// The oldest ask of a socket that waits fails.
    fn fail_one(&mut self, socket: usize) {
        let Some(post) = self.sockets.get_mut(socket) else {
            return;
        };
        if let Some(asked) = post.queue.take() {
            let _ = self.deliver(Answered::new(asked, None));
        }
    }

    /// How many asks of a socket wait.
    fn waiting(&self, socket: usize) -> usize {
        match self.sockets.get(socket) {
            Some(post) => post.queue.len(),
            None => 0,
        }
    }

    /// The asks of a socket that wait fail.
    fn fail_socket(&mut self, socket: usize) {
        for _ in 0..self.waiting(socket) {
            self.fail_one(socket);
        }
    }

    /// All asks that wait fail.
    fn fail_all(&mut self) {
        for socket in 0..self.sockets.len() {
            self.fail_socket(socket);
        }
    }
}

/// So many mailboxes, all empty.
fn empty_mailboxes<V: Voucher>(alloc: Global, seats: usize) -> Result<Vec<Mailbox<V>>, Memory> {
    let mut mailboxes = Vec::with_capacity(alloc, seats)?;
    for _ in 0..seats {
        mailboxes.push(Mailbox::empty(alloc))?;
    }
    Ok(mailboxes)
}

/// The posts of so many sockets, all empty.
fn empty_posts(alloc: Global, sockets: usize) -> Result<Vec<Post>, Memory> {
    let mut posts = Vec::with_capacity(alloc, sockets)?;
    for _ in 0..sockets {
        posts.push(Post::start(alloc))?;
    }
    Ok(posts)
}

/// The asks of all sockets, and the answers for all seats. Seats put asks into it and look for answers; signers take asks
/// out and put answers in. `next` waits for something to do; the other calls wait for the lock alone.
#[derive(Drop)]
pub struct AskHub<V: Voucher> {
    posts: Mutex<Posts<V>>,
    moved: Condvar,
}

impl<V: Voucher> AskHub<V> {
    /// The asks of so many sockets at first, the answers for so many seats, and so many signers. A socket of a higher number has its
    /// place from its first ask on. Of one socket at most half of the signers' asks are under way at once, and at least one.
    pub fn start(
        alloc: Global,
        seats: usize,
        sockets: usize,
        signers: u32,
    ) -> Result<Arc<AskHub<V>>, Memory> {
        let hub = AskHub {
            posts: Mutex::new(Posts {
                alloc,
                mailboxes: empty_mailboxes(alloc, seats)?,
                sockets: empty_posts(alloc, sockets)?,
                turns: VecDeque::with_capacity(alloc, sockets)?,
                most: (signers / 2).max(1),
                now: 0,
                silent_until: 0,
                tickets: false,
                over: false,
            }),
            moved: Condvar::new(),
        };
        match Arc::new(alloc, hub) {
            Ok(hub) => Ok(hub),
            Err(_) => Err(Memory),
        }
    }

    /// The answer to this ask of this connection of a seat, which is none where it failed. The answer to another ask of it is
    /// let go.
    pub(crate) fn find<R: Wait>(
        &self,
        rt: &R,
        seat: u32,
        connection: u64,
        ask: &Ask,
        audience: &[Octets],
    ) -> Result<Option<JwtToken>, Missing>
        ensures { IfOk result (λ answer. IfSome answer (V.token ask.now (sorted_texts audience.now))) }
    {
        let mut posts = self.posts.lock(rt);
        let Some(mailbox) = posts.mailboxes.get_mut(seat as usize) else {
            return Err(Missing::NoAsk);
        };
        match mailbox.take(connection) {
            Some(letter) => match letter.open(ask, audience) {
                Opened::This(answer) => Ok(answer),
                Opened::Other(_, _, _) => Err(Missing::NoAsk),
            },
            None if mailbox.awaits(connection) => Err(Missing::Waits),
            None => Err(Missing::NoAsk),
        }
    }

    /// Puts an ask.
    pub(crate) fn put<R: Wait>(&self, rt: &R, asked: Asked) -> Putting {
        let mut posts = self.posts.lock(rt);
        if posts.over || posts.now < posts.silent_until {
            return Putting::Refused;
        }
        let put = posts.put(asked);
        drop(posts);
        self.moved.notify_one();
        put
    }

    /// The ask of this connection is given up; what still comes for it is awaited by nobody.
    pub(crate) fn forget<R: Wait>(&self, rt: &R, seat: u32, connection: u64) {
        self.posts.lock(rt).forget(seat, connection);
    }

    /// Puts the answer to an ask that was under way. It comes back where nobody awaits it any more.
    pub(crate) fn answered<R: Wait>(&self, rt: &R, letter: Answered<V>) -> Option<Answered<V>> {
        let mut posts = self.posts.lock(rt);
        posts.came_back(letter.socket());
        let back = posts.deliver(letter);
        drop(posts);
        // another ask of the socket may be taken now
        self.moved.notify_one();
        back
    }

    /// An exchange with a signer has ended by time at this second: the asks that wait fail, and those of the next seconds.
    pub(crate) fn silence<R: Wait>(&self, rt: &R, now: u64) {
        let mut posts = self.posts.lock(rt);
        posts.silent_until = now.saturating_add(SILENCE);
        posts.fail_all();
    }

    /// Says what time it is.
    pub(crate) fn tell_time<R: Wait>(&self, rt: &R, now: u64) {
        self.posts.lock(rt).now = now;
    }

    /// Says that there may be a ticket to be asked for.
    pub(crate) fn nudge<R: Wait>(&self, rt: &R) {
        self.posts.lock(rt).tickets = true;
        self.moved.notify_one();
    }

    /// Says to all who wait that there will be no more.
    pub(crate) fn close<R: Wait>(&self, rt: &R) {
        self.posts.lock(rt).over = true;
        self.moved.notify_all();
    }

    /// Waits for something that a signer is to do. Asks for tokens go first, since a caller waits for each.
    pub(crate) fn next<R: Wait>(&self, rt: &R) -> Turn {
        let mut posts = self.moved.wait_while(
            rt,
            self.posts.lock(rt),
            |posts| !posts.over && !posts.is_ready(),
        );
        if posts.over {
            return Turn::Over;
        }
        match posts.take() {
            Some(ask) => Turn::Ask(ask),
            None => {
                posts.tickets = false;
                Turn::Ticket
            }
        }
    }
}
