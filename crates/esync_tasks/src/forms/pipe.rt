// The futures of pipes, and of values that are used as any pipe.
ghost use Rattle.std.specs.Prelude.{◌≤◌, IsSome, length};
ghost use Rattle.esync_tasks.specs.Polled.{IfReady, OnPending};

use crate::future::Future;
use esync_base::store::ByteStore;
use esync_base::waitqueue::{Context, Hand, Poll, TaskId};
use esync_pipe::pipe::{
    DynamicFillBufFuture, DynamicPipe, DynamicReadFuture, DynamicWriteFuture, FillBufFuture,
    ReadFuture, WriteAllFuture, WriteFuture,
};

/// Gives how many of the bytes were written.
impl<R: ByteStore, W: Copy + Eq, H: Hand<W>> Future<W> for WriteFuture<'_, R, W, H> {
    type Output = usize;

    ghost gives = { λ from count. count ≤ length from };

    fn poll(&mut self, cx: &Context<W>) -> Poll<usize> {
        WriteFuture::poll(self, cx)
    }
}

/// Gives nothing. The future may be polled until all bytes are written.
impl<R: ByteStore, W: Copy + Eq, H: Hand<W>> Future<W> for WriteAllFuture<'_, R, W, H> {
    type Output = ();

    ghost can_poll = { λ rest. IsSome rest };

    fn poll(&mut self, cx: &Context<W>) -> Poll<()> {
        WriteAllFuture::poll(self, cx)
    }
}

/// Gives how many bytes were read.
impl<R: ByteStore, W: Copy + Eq, H: Hand<W>> Future<W> for ReadFuture<'_, '_, R, W, H> {
    type Output = usize;

    ghost gives = { λ to count. count ≤ length to };

    fn poll(&mut self, cx: &Context<W>) -> Poll<usize> {
        ReadFuture::poll(self, cx)
    }
}

/// Gives nothing. The reader shows the bytes by `filled`.
impl<R: ByteStore, W: Copy + Eq, H: Hand<W>> Future<W> for FillBufFuture<'_, '_, R, W, H> {
    type Output = ();

    fn poll(&mut self, cx: &Context<W>) -> Poll<()> {
        FillBufFuture::poll(self, cx)
    }
}

/// Gives how many of the bytes were written.
impl<P: DynamicPipe> Future<TaskId> for DynamicWriteFuture<'_, P> {
    type Output = usize;

    ghost gives = { λ from count. count ≤ length from };

    fn poll(&mut self, cx: &Context<TaskId>) -> Poll<usize> {
        DynamicWriteFuture::poll(self, cx)
    }
}

/// Gives how many bytes were read.
impl<P: DynamicPipe> Future<TaskId> for DynamicReadFuture<'_, '_, P> {
    type Output = usize;

    ghost gives = { λ to count. count ≤ length to };

    fn poll(&mut self, cx: &Context<TaskId>) -> Poll<usize> {
        DynamicReadFuture::poll(self, cx)
    }
}

/// Gives nothing. The reader shows the bytes by `filled`.
impl<P: DynamicPipe> Future<TaskId> for DynamicFillBufFuture<'_, P> {
    type Output = ();

    fn poll(&mut self, cx: &Context<TaskId>) -> Poll<()> {
        DynamicFillBufFuture::poll(self, cx)
    }
}
