//! The connections of one door that no worker serves.

use crate::Lines;
use crate::again::{Accepted, PAUSE, accept_once};
use crate::closing::{Closing, is_asked, is_closing};
use crate::connection::{Connection, Gathered};
use crate::host_link::{BETWEEN, LAST_WAIT, WHOLE};
use crate::trouble::{Trouble, tell_asked};
use mio::unix::SourceFd;
use mio::{Events, Interest, Poll, Token};
use std::alloc::Global;
use std::collections::VecDeque;
use std::io;
use std::net::TcpListener;
use std::os::fd::AsRawFd;
use std::time::{Duration, Instant};

// The token of the listener, and that of the socket of the operator. The connections have the
// numbers after them.
const LISTENER: usize = 0;

const OPERATOR: usize = 1;

// How many events of the system are taken at a time.
const EVENTS: usize = 64;

// How many milliseconds pass before the connections are looked through for those that are over a
// limit of time.
const TICK: u64 = 500;

// How many milliseconds an end that is asked for waits for what is on its way, and for the messages
// that have begun.
const ON_ITS_WAY: u64 = 200;

const LAST_MESSAGES: u64 = 4000;

// The same while an end is asked for.
const END_TICK: u64 = 50;

/// A connection that waits for its client.
#[derive(Drop)]
struct IdleStream {
    connection: Connection,
    token: usize,
    /// Since when it is idle, or its message has begun, or it ends.
    since: Instant,
    /// When its client last took bytes, if some are unsent, or sent some.
    last: Instant,
}

impl IdleStream {
    // Sends and reads what can be now. Whether it goes on.
    fn attend(&mut self, now: Instant) -> bool {
        let (had_unsent, had_begun) = (self.connection.has_unsent(), self.connection.has_begun());
        match self.connection.attend() {
            Ok(true) => self.last = now,
            Ok(false) => {}
            Err(_) => return false,
        }
        let is_sent = had_unsent && !self.connection.has_unsent();
        if is_sent || !had_begun && self.connection.has_begun() {
            self.since = now;
            self.last = now;
        }
        !self.connection.is_over()
    }

    // Whether it is over a limit of time.
    fn is_overdue(&self, now: Instant, limit: Duration) -> bool {
        let (since, last) = (
            now.duration_since(self.since),
            now.duration_since(self.last),
        );
        let between = Duration::from_secs(BETWEEN);
        if self.connection.has_unsent() {
            between <= last
        } else if self.connection.ends() {
            Duration::from_secs(LAST_WAIT) <= since
        } else if self.connection.has_begun() {
            between <= last || Duration::from_secs(WHOLE) <= since
        } else {
            limit <= since
        }
    }
}

// The place of the connection with this token. Tokens rise from place to place.
fn place_of(idle: &[IdleStream], token: usize) -> Option<usize> {
    idle.binary_search_by(|one| one.token.cmp(&token)).ok()
}

// Whether so many milliseconds have passed, if any.
fn is_past(passed: Option<Duration>, limit: u64) -> bool {
    passed.is_some_and(|passed| Duration::from_millis(limit) <= passed)
}

/// What a door has next.
#[derive(Drop)]
enum MessageOrEnd {
    /// A connection that has a message as a whole.
    Message(Gathered),
    /// Neither a message nor the end.
    Neither,
    /// The end that is asked for is reached.
    End,
}

/// The connections of one door that no worker serves, in the order in which the door got them. It
/// gathers what their clients send, and sends what their clients have not taken yet, and waits for
/// all of them and for the door's listener together. It gives a connection once that has a message
/// as a whole. One whose client is over a limit of time is ended.
#[derive(Drop)]
pub(crate) struct IdleStreams {
    poll: Poll,
    events: Events,
    alloc: Global,
    idle: Vec<IdleStream>,
    /// The tokens of those of which the system had news.
    news: VecDeque<usize>,
    /// Those that have a message as a whole.
    whole: VecDeque<Gathered>,
    /// How many bytes are held for all of them, and how many may be.
    held: usize,
    most: usize,
    /// How long the first byte of a message is waited for.
    limit: Duration,
    /// When they were looked through for those that are over a limit of time.
    looked: Instant,
    last_token: usize,
    /// Whether the listener may have a connection.
    may_accept: bool,
    /// Since when an end is asked for.
    asked: Option<Instant>,
    trouble: Trouble,
}

impl IdleStreams {
    /// No connections yet, beside this listener, which must not block, and the socket of an
    /// operator, if there is one. So many bytes may be held for the connections.
    pub(crate) fn of(
        rt: &HostRuntime,
        alloc: Global,
        listener: &TcpListener,
        limit: Duration,
        most: usize,
        operator: Option<i32>,
    ) -> io::Result<IdleStreams> {
        let poll = Poll::new(rt)?;
        let events = Events::with_capacity(alloc, EVENTS)?;
        let place = listener.as_raw_fd();
        poll.registry()
            .register(&mut SourceFd(&place), Token(LISTENER), Interest::READABLE)?;
        if let Some(operator) = operator {
            poll.registry().register(
                &mut SourceFd(&operator),
                Token(OPERATOR),
                Interest::READABLE,
            )?;
        }
        Ok(IdleStreams {
            poll,
            events,
            alloc,
            idle: Vec::new(alloc),
            news: VecDeque::new(alloc),
            whole: VecDeque::new(alloc),
            held: 0,
            most,
            limit,
            looked: Instant::now(rt)?,
            last_token: OPERATOR,
            may_accept: true,
            asked: None,
            trouble: Trouble::none(),
        })
    }

    /// Keeps a connection until it has a message as a whole. It is ended where the system can't
    /// watch it, or without memory.
    pub(crate) fn keep(&mut self, rt: &HostRuntime, connection: Connection) {
        let Ok(now) = Instant::now(rt) else {
            return;
        };
        if connection.is_over() {
            return;
        }
        self.hold(connection.held());
        if let Some(end) = connection.next_message() {
            let _ = self.whole.push_back(Gathered::of(connection, end));
        } else {
            self.last_token = self.last_token.wrapping_add(1).max(OPERATOR + 1);
            let token = self.last_token;
            if self.watch(&connection, token) {
                let _ = self.idle.push(IdleStream {
                    connection,
                    token,
                    since: now,
                    last: now,
                });
            }
        }
    }

    // Has the system tell by a token of what a connection can read, and of room for what is unsent.
    fn watch(&self, connection: &Connection, token: usize) -> bool {
        let interest = if connection.has_unsent() {
            Interest::READABLE | Interest::WRITABLE
        } else {
            Interest::READABLE
        };
        let place = connection.stream().as_raw_fd();
        self.poll
            .registry()
            .register(&mut SourceFd(&place), Token(token), interest)
            .is_ok()
    }

    // So many bytes more are held.
    fn hold(&mut self, bytes: usize) {
        self.held = self.held.saturating_add(bytes);
    }

    // So many bytes less are held.
    fn let_go(&mut self, bytes: usize) {
        self.held = self.held.saturating_sub(bytes);
    }

    // Waits so many milliseconds for news of a connection, of the listener or of the operator.
    // Whether there may be more news.
    fn look(&mut self, lines: &Lines, wait: u64, closing: Option<&Closing>) -> io::Result<bool> {
        self.poll
            .poll(&mut self.events, Some(Duration::from_millis(wait)))?;
        let mut count = 0u32;
        for event in self.events.iter() {
            count = count.saturating_add(1);
            match usize::from(event.token()) {
                LISTENER => self.may_accept = true,
                OPERATOR => {
                    if closing.is_some_and(|closing| closing.ask()) {
                        tell_asked(lines);
                    }
                }
                token => self.news.push_back(token)?,
            }
        }
        Ok(EVENTS <= count as usize)
    }

    // Takes out the connection at a place, which the system watches no more.
    fn take_out(&mut self, place: usize) -> Option<Connection> {
        if place >= self.idle.len() {
            return None;
        }
        let connection = self.idle.remove(place).connection;
        let descriptor = connection.stream().as_raw_fd();
        let _ = self.poll.registry().deregister(&mut SourceFd(&descriptor));
        Some(connection)
    }

    // Attends to the connection at a place, and moves it on if its message is whole, or lets it go
    // if it is over.
    fn attend(&mut self, place: usize, now: Instant) {
        let Some(one) = self.idle.get_mut(place) else {
            return;
        };
        let before = one.connection.held();
        let goes_on = one.attend(now);
        let (after, message) = (one.connection.held(), one.connection.next_message());
        self.let_go(before);
        if !goes_on {
            let _ = self.take_out(place);
            return;
        }
        self.hold(after);
        if let Some(end) = message
            && let Some(connection) = self.take_out(place)
        {
            let _ = self.whole.push_back(Gathered::of(connection, end));
        }
    }

    // Attends to each connection of which the system had news.
    fn gather(&mut self, rt: &HostRuntime) -> io::Result<()> {
        let now = Instant::now(rt)?;
        for _ in 0..self.news.len() {
            let Some(token) = self.news.pop_front() else {
                return Ok(());
            };
            if let Some(place) = place_of(&self.idle, token) {
                self.attend(place, now);
                self.make_room();
            }
        }
        Ok(())
    }

    // Ends the connections for which bytes were held longest, until no more bytes are held than may
    // be.
    fn make_room(&mut self) {
        for _ in 0..u64::MAX {
            if self.held <= self.most {
                return;
            }
            match self.idle.iter().position(|one| one.connection.held() > 0) {
                Some(place) => {
                    let held = self.idle.remove(place).connection.held();
                    self.let_go(held);
                }
                None => match self.take_whole() {
                    Some(_) => {}
                    None => self.held = 0,
                },
            }
        }
    }

    // Takes out the first connection that has a message as a whole.
    fn take_whole(&mut self) -> Option<Gathered> {
        let gathered = self.whole.pop_front()?;
        self.let_go(gathered.held());
        Some(gathered)
    }

    // Ends the connections that are over a limit of time.
    fn end_overdue(&mut self, rt: &HostRuntime) -> io::Result<()> {
        let now = Instant::now(rt)?;
        if now.duration_since(self.looked) < Duration::from_millis(TICK) {
            return Ok(());
        }
        self.looked = now;
        let limit = self.limit;
        let mut held = 0;
        self.idle.retain(|one| !one.is_overdue(now, limit));
        for one in self.idle.iter() {
            held = one.connection.held().saturating_add(held);
        }
        for gathered in self.whole.iter() {
            held = gathered.held().saturating_add(held);
        }
        self.held = held;
        Ok(())
    }

    // Ends the connection that was kept longest, so that another may come.
    fn end_longest(&mut self) {
        if !self.idle.is_empty() {
            let held = self.idle.remove(0).connection.held();
            self.let_go(held);
        }
    }

    // Accepts one connection if one waits, and answers how many milliseconds the next look may
    // wait.
    fn admit(
        &mut self,
        rt: &HostRuntime,
        lines: &Lines,
        listener: &TcpListener,
    ) -> io::Result<u64> {
        match accept_once(listener)? {
            Accepted::Stream(stream) => {
                if let Ok(connection) = Connection::of(self.alloc, stream) {
                    self.keep(rt, connection);
                }
                Ok(0)
            }
            Accepted::Nothing => {
                self.trouble.end(lines);
                self.may_accept = false;
                Ok(self.tick())
            }
            Accepted::Passing(cause) => {
                self.trouble.begin(lines, &cause);
                self.end_longest();
                Ok(PAUSE)
            }
        }
    }

    // How many milliseconds a look may wait where nothing is to be done.
    fn tick(&self) -> u64 {
        if self.asked.is_some() { END_TICK } else { TICK }
    }

    // Whether a message has begun, or a client has bytes of a response to take.
    fn has_work(&self) -> bool {
        self.idle.iter().any(|one| one.connection.has_begun() || one.connection.has_unsent())
    }

    // How long ago an end was asked for, if it is. Once what was on its way has come, no connection
    // is accepted.
    fn asked_for(
        &mut self,
        rt: &HostRuntime,
        closing: Option<&Closing>,
    ) -> io::Result<Option<Duration>> {
        if !is_asked(closing) {
            return Ok(None);
        }
        let now = Instant::now(rt)?;
        let passed = now.duration_since(*self.asked.get_or_insert(now));
        if Duration::from_millis(ON_ITS_WAY) <= passed {
            self.may_accept = false;
        }
        Ok(Some(passed))
    }

    // The next message as a whole, or that an end that was asked for so long ago is reached: what
    // was on its way has come, and nothing is in hand, or the time is over, also for the messages
    // that clients send without a pause.
    fn message_or_end(&mut self, passed: Option<Duration>) -> MessageOrEnd {
        if is_past(passed, LAST_MESSAGES) {
            return MessageOrEnd::End;
        }
        match self.take_whole() {
            Some(gathered) => MessageOrEnd::Message(gathered),
            None if is_past(passed, ON_ITS_WAY) && !self.has_work() => MessageOrEnd::End,
            None => MessageOrEnd::Neither,
        }
    }

    /// The next connection that has a message as a whole. None once the journal is lost, at most
    /// half a second later, or an end is asked for and the messages in hand are served, at most
    /// four seconds later.
    pub(crate) fn next(
        &mut self,
        rt: &HostRuntime,
        lines: &Lines,
        listener: &TcpListener,
        closing: Option<&Closing>,
    ) -> io::Result<Option<Gathered>> {
        let mut wait = 0;
        for _ in 0..u64::MAX {
            if is_closing(closing) {
                return Ok(None);
            }
            let has_more = self.look(lines, wait, closing)?;
            let passed = self.asked_for(rt, closing)?;
            wait = if self.may_accept {
                self.admit(rt, lines, listener)?
            } else {
                self.tick()
            };
            self.gather(rt)?;
            if !has_more {
                self.end_overdue(rt)?;
            }
            match self.message_or_end(passed) {
                MessageOrEnd::Message(gathered) => return Ok(Some(gathered)),
                MessageOrEnd::End => return Ok(None),
                MessageOrEnd::Neither => {}
            }
        }
        Err(io::Error::from(io::ErrorKind::TimedOut))
    }
}
