//! The digest of a state, which a thread may still be making.

ghost use Rattle.std.specs.Prelude.{◌≡◌, ◌<◌, ◌≤◌, ◌^◌, length};
ghost use Rattle.std.specs.Arc.{arc_value};
ghost use Rattle.sha2.specs.Sha256.{sha256};
ghost use Rattle.sx_block.specs.Digest.{IsDigest};
ghost use Rattle.sx_digests.specs.StateDigest.{IsWhole, digest_in};
ghost use Rattle.sx_record.specs.Frame.{most_bytes, record_bytes};
ghost use Rattle.sx_record.specs.Tags.{state_tag};

use crate::hashing::record_digest;
use std::alloc::Global;
use std::snapshot::Snapshot;
use std::sync::Arc;
use std::thread::{Promise, PromisedHandle, Threads, spawn_with};
use sx_block::Digest;
use sx_bytes::Bytes;
use sx_record::{Record, tag};

// From how many bytes on a payload is hashed on a thread of its own. Hashing takes milliseconds there,
// and to start a thread a small part of one.
const WORTH_A_THREAD: usize = 1 << 20;

/// What a thread promises of the digest that it makes: it is that of the state record of this payload.
#[derive(Drop)]
pub struct DigestOf {
    pub payload: Snapshot<Bytes>,
}

impl Promise<Digest> for DigestOf {
    ghost kept_by = { λ promise digest. (digest ≡ sha256 (record_bytes state_tag promise.payload.value)) × IsDigest digest };
}

/// The digest of the record of a state. Where this is let go while a thread makes it, the thread runs on to its end,
/// and what it makes is lost.
#[derive(Drop)]
pub enum StateDigest {
    /// The digest.
    Known(Digest),
    /// A thread makes it.
    Making(PromisedHandle<Digest, DigestOf>),
}

impl StateDigest {
    /// The digest of the state record with the payload of this record. Where that is 1 MiB or more, a thread of its
    /// own makes the digest, which has the record for as long. Where no thread can be started, the call makes it.
    pub fn start<R: Threads>(rt: &R, found: &Arc<Record, Global>) -> StateDigest
        requires { length (arc_value found.now).payload ≤ most_bytes }
        ensures hash { digest_in result ≡ sha256 (record_bytes state_tag (arc_value found.now).payload) }
        ensures digest { IsWhole result }
    {
        let payload = found.payload.items();
        if payload.len() < WORTH_A_THREAD {
            return StateDigest::Known(record_digest(tag::STATE, payload));
        }
        let Ok(theirs) = Arc::try_clone(found) else {
            return StateDigest::Known(record_digest(tag::STATE, payload));
        };
        let promise = DigestOf {
            payload: Snapshot::of(&found.payload),
        };
        let making = spawn_with(
            rt,
            promise,
            move || -> Digest
                requires { length (arc_value theirs).payload ≤ most_bytes }
                ensures hash { result ≡ sha256 (record_bytes state_tag (arc_value theirs).payload) }
                ensures digest { IsDigest result }
            { record_digest(tag::STATE, theirs.payload.items()) },
        );
        match making {
            Ok(handle) => StateDigest::Making(handle),
            Err(refused) => StateDigest::Known((refused.value)()),
        }
    }

    /// The digest. Where a thread still makes it, the call waits for the thread.
    pub fn wait<R: Threads>(self, rt: &R) -> Digest
        ensures hash { result ≡ digest_in self }
        ensures digest { IsWhole self → IsDigest result }
    {
        match self {
            StateDigest::Known(digest) => digest,
            StateDigest::Making(handle) => handle.join(rt),
        }
    }
}
