// The live transactions with their clients.
ghost use Rattle.std.specs.Prelude.{◌≡◌, ◌<◌, ◌+◌, [], ◌∷◌, length, map, OnOk, OnErr};
ghost use Rattle.sx_model.specs.Leaves.{txn_among, without};
ghost use Rattle.sx_core.specs.Clients.{living_of};

use std::alloc::{AllocError, Global};
use std::marker::Model;

// A client with its live transaction.
#[derive(Clone, Copy)]
pub(crate) struct Client {
    pub(crate) client: u8,
    pub(crate) txn: u64,
}

// Live transactions with their clients, the last one begun first, and the room for further ones.
#[derive(Drop)]
pub(crate) struct Clients {
    items: Vec<Client>,
}

impl Model for Clients {
    ghost use Rattle.std.specs.Prelude.{map, ◌-◌, vec_len, vec_capacity};
    ghost use Rattle.sx_lists.specs.Places.{Growing};
    ghost use Rattle.sx_model.specs.Leaves.{Living};
    ghost use Rattle.sx_core.specs.Clients.{living_of};

    ghost Value = { Growing Living };

    ghost view = { λ c. record { newest = map living_of c.items.items; spare = vec_capacity c.items - vec_len c.items } };
}

impl Clients {
    // Nobody, without room.
    pub(crate) fn new(alloc: Global) -> Clients
        ensures { result.newest ≡ [] }
    {
        Clients {
            items: Vec::new(alloc),
        }
    }

    // Makes room for one more. Want of memory changes nothing.
    pub(crate) fn reserve(&mut self) -> Result<(), AllocError>
        ensures same { self.new.newest ≡ self.old.newest }
        ensures room { OnOk result (0 < self.new.spare) }
        ensures err { OnErr result (self.new ≡ self.old) }
    {
        self.items.reserve(1)
    }

    // Puts a client's transaction before the others, which takes no memory.
    pub(crate) fn add(&mut self, client: u8, txn: u64)
        requires { 0 < self.old.spare }
        ensures { self.new.newest ≡ record { client = client; txn = txn } ∷ self.old.newest }
    {
        match self.items.insert(0, Client { client, txn }) {
            Ok(()) => {}
            Err(_) => unreachable!(),
        }
    }

    // Takes a client's transaction out.
    pub(crate) fn remove(&mut self, client: u8)
        ensures { self.new.newest ≡ without client self.old.newest }
    {
        self.items.retain(|item| item.client != client);
    }

    // The transaction of a client, if it has one.
    pub(crate) fn txn_of(&self, client: u8) -> Option<u64>
        ensures { result ≡ txn_among self.now.newest client }
    {
        txn_among(self.items.as_slice(), client)
    }

    // How many there are.
    pub(crate) fn len(&self) -> u64
        ensures { result ≡ length self.now.newest }
    {
        self.items.len() as u64
    }

    // The room that the end of each takes, and so many entries more.
    pub(crate) fn room_and(&self, more: u8) -> u64
        ensures { result ≡ length self.now.newest + more }
    {
        self.items.len() as u64 + u64::from(more)
    }

    // The transactions with their clients.
    pub(crate) fn as_slice(&self) -> &[Client]
        ensures { map living_of result.now ≡ self.now.newest }
    {
        self.items.as_slice()
    }
}

// The transaction of a client among these.
fn txn_among(clients: &[Client], client: u8) -> Option<u64>
    ensures { result ≡ txn_among (map living_of clients.now) client }
{
    match clients {
        [] => None,
        [first, rest @ ..] => {
            if first.client == client {
                Some(first.txn)
            } else {
                txn_among(rest, client)
            }
        }
    }
}
