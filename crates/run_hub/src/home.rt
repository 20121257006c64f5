/// Where the actors of a hub go when it is over. Until then nobody is there, and there is room for all.
#[derive(Drop)]
pub struct Home<P: Drop, N: Drop> {
    pub parts: Vec<P>,
    pub links: Vec<N>,
}
