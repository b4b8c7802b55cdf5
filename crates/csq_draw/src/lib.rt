//! A schedule of the steps of a cancel-safe IRP queue, drawn: a column for each pass, a row for each step.
#![tactic(auto)]

mod arrows;
mod bars;
mod calls;
mod canvas;
mod caption;
mod characters;
mod circles;
mod drawing;
mod element;
mod ending;
mod extent;
mod harm_marks;
mod heading;
mod irps;
mod lanes;
mod laws;
mod layout;
mod lives;
mod marks;
mod owners;
mod page;
mod passes;
mod picture;
mod refusals;
mod row_picture;
mod rows;
mod sheet;
mod spans;
mod view;
mod window;
mod words;
mod wrong_rows;

pub use drawing::Drawing;
pub use heading::PICTURE_HEAD;
pub use laws::{
    each_arrow_is_from_the_write, each_bar_shows_the_words, each_drawn_owner_owes_or_holds,
    each_irp_has_its_place, each_line_has_its_number, each_pass_has_its_column,
    each_shade_is_of_the_lock, each_shown_pass_has_its_column, each_shown_step_has_one_mark,
    each_step_has_one_mark, each_step_of_an_order_has_one_mark, each_step_shows_its_words,
    no_two_lines_share_a_lane, the_shaded_pass_has_the_lock,
};
pub use view::{Format, PictureView, Window};
