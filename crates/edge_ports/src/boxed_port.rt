use crate::failed::Failed;
use crate::port::Port;

/// A boxed port tells what the port inside tells, and hands each call on.
impl Port for Box<dyn Port + Send> {
    ghost end = { λ b. (Port-box b).end b.value };

    fn given(&self) -> Option<&[u8]> {
        (**self).given()
    }

    fn close(&mut self) {
        (**self).close()
    }

    fn take(&mut self, into: &mut [u8]) -> Result<usize, Failed> {
        (**self).take(into)
    }

    fn put(&mut self, from: &[u8]) -> Result<(), Failed> {
        (**self).put(from)
    }
}
