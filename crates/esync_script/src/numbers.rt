//! A primitive with as many requests at a time as a language of scripts has.
ghost use Rattle.std.specs.Prelude.{◌≡◌, ◌≤◌, None};
ghost use Rattle.std.proofs.Math.ListN.{replicate};

use crate::capacity::RequestLimit;
use esync_base::extent::Chosen;
use esync_base::limited::Limit;
use esync_machine::primitive::Primitive;
use esync_machine::requests::RequestsOver;
use esync_words::vocabulary::REQS;
use std::marker::PhantomData;

/// Stands for the greatest number of requests that a script of the language `C` can have at a time.
#[derive(Debug)]
pub struct RequestsOf<C: RequestLimit> {
    language: PhantomData<C>,
}

impl<C: RequestLimit> Limit for RequestsOf<C> {
    ghost limit = { C.requests };
}

/// A primitive with the requests that a script of the language `C` has.
pub type Numbered<P, C, const K: usize> = RequestsOver<P, Chosen<RequestsOf<C>>, REQS, K>;

/// Returns a machine over the primitive in which all numbers are free.
pub fn numbered<P: Primitive<K>, C: RequestLimit, const K: usize>(state: P) -> Numbered<P, C, K>
    requires { P.most ≤ K }
    ensures state { result.state ≡ state }
    ensures requests { result.requests ≡ replicate C.requests None }
{
    RequestsOver::over(state, Chosen::new(C::requests()))
}
