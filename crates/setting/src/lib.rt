// What a shot is made with, apart from its samples and rectangles.
#![tactic(auto)]

// A shot's setting as numbers, any numbers.
#[derive(Clone, Copy)]
pub struct Setting {
    pub kernel: usize,
    pub levels: usize,
    pub depth: usize,
    pub width: usize,
    pub height: usize,
}
