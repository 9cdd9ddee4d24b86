// The stored requests. A slot is a place in the order in which they came.
ghost use Rattle.std.specs.Prelude.{◌≡◌};
ghost use Rattle.world.specs.Requests.{unused_request, fresh_requests, request_bytes, same_digest, known_digest};

use fips180::Digest;

#[repr(C)]
#[derive(Clone, Copy, PartialEq, Eq)]
pub struct Request {
    // The client's own number for it.
    pub serial: u32,
    pub client: u8,
    // Bit i: the client's seal for server i is good.
    pub seals: u8,
    pub command: [u8; Request::COMMAND],
    pub digest: [u8; Digest::BYTES],
}

// An array with its count beside it: C lays it out, and there is no heap.
#[repr(C)]
#[derive(Clone, Copy)]
pub struct Requests {
    pub slots: [Request; Requests::MOST],
    pub count: u8,
}

impl Request {
    // The bytes ahead of the command: the client, its number's four and the seals.
    pub const HEAD: usize = 1 + 4 + 1;

    pub const COMMAND: usize = 24;

    // The bytes of a request's body.
    pub const BYTES: usize = Request::HEAD + Request::COMMAND;

    // A slot that is not given yet.
    pub fn unused() -> Request
        ensures { result ≡ unused_request }
    {
        Request {
            serial: 0,
            client: 0,
            seals: 0,
            command: [0; Request::COMMAND],
            digest: [0; Digest::BYTES],
        }
    }

    // Whether its digest is this one.
    pub fn has_digest(self, digest: [u8; Digest::BYTES]) -> bool
        ensures { result ≡ same_digest self.digest digest }
    {
        same_digest(self.digest, digest)
    }

    // The bytes of its record, whose digest is the request's.
    #[tactic(auto, unfolding(crate::specs::Requests::request_bytes))]
    pub fn bytes(self) -> [u8; Request::BYTES]
        ensures { result ≡ request_bytes self }
    {
        let mut b = [0u8; Request::BYTES];
        b[0] = self.client;
        b[1..5].copy_from_slice(&self.serial.to_be_bytes());
        b[5] = self.seals;
        b[Request::HEAD..].copy_from_slice(&self.command);
        b
    }
}

impl Requests {
    pub const MOST: usize = 128;

    // No request stored yet.
    #[tactic(auto, unfolding(crate::specs::Requests::fresh_requests))]
    pub fn fresh() -> Requests
        ensures { result ≡ fresh_requests }
    {
        Requests {
            slots: [Request::unused(); Requests::MOST],
            count: 0,
        }
    }

    // Whether a stored request has this digest.
    pub fn knows(self, digest: [u8; Digest::BYTES]) -> bool
        ensures { result ≡ known_digest self digest }
    {
        self.slots
            .iter()
            .take(usize::from(self.count))
            .any(|r| r.has_digest(digest))
    }
}

// Whether two digests are equal: none of their bytes differs.
pub fn same_digest(a: [u8; Digest::BYTES], b: [u8; Digest::BYTES]) -> bool
    ensures { result ≡ same_digest a b }
{
    a == b
}
