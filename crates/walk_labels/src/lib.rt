//! The walks of an airport as walks over cells: the bridge from the definitions to the mathematics of labels. A cell is a
//! place, which is an arc with one window of its segment. There is no search here and nothing is computed: each function
//! is a law.
#![tactic(auto)]

mod arrivals;
mod cells;
mod conditions;
mod departures;
mod frozen;

pub use arrivals::{
    answers_to_arrivals_pass, closed_tables_have_all_exits, searches_over_cells_answer_arrivals,
    tables_that_pass_leave_no_arrival_out,
};
pub use cells::{
    best_walks_are_best_over_cells, feasible_walks_are_walks_over_cells,
    labels_are_values_of_cells, places_are_cells, starts_and_finishes_are_those_of_requests,
    values_of_cells_are_tables,
};
pub use conditions::{conditions_are_fit, windows_of_holds_are_lists};
pub use departures::{
    answers_to_departures_pass, closed_tables_have_all_entries,
    searches_over_cells_answer_departures, tables_that_pass_leave_no_departure_out,
};
pub use frozen::steps_begun_are_left_late;
