// Whether certified brackets stand alone, or join brackets that are proved already.
#[derive(Clone, Copy)]
pub enum Basis {
    Alone,
    Joined,
}
