//! A reader of any pipe for which there is no memory.
use crate::memory::says_refused;
use esync_base::waitqueue::TaskId;
use esync_notes::{Deaf, holds, same};
use esync_pipe::pipe::{DynamicPipe, DynamicReader, DynamicWriter, Pipe};
use std::alloc::AllocError;

// The growth of the reader is the only one: its calls take no memory.
#[test]
fn a_refused_reader_is_made_again(rt: HostRuntime) -> Result<(), AllocError> {
    let shared: Pipe<TaskId, Deaf<HostRuntime>, 3> = Pipe::new(Deaf::default());
    let pipe: &dyn DynamicPipe = &shared;
    let writer: DynamicWriter<&dyn DynamicPipe> = DynamicWriter::new(pipe);
    holds!(rt; writer.try_write(&[42, 43]) == Ok(2));
    let mut reader: DynamicReader<&dyn DynamicPipe> = match DynamicReader::new(rt.alloc(), pipe) {
        Ok(reader) => reader,
        Err(AllocError) => {
            says_refused(&rt);
            same!(rt; shared.len(), 2);
            DynamicReader::new(rt.alloc(), pipe)?
        }
    };
    holds!(rt; reader.try_fill_buf() == Ok(()));
    same!(rt; reader.filled(), [42, 43].as_slice());
    let mut to = [0; 3];
    holds!(rt; reader.try_read(&mut to) == Ok(2));
    same!(rt; to, [42, 43, 0]);
    Ok(())
}
