// The picture filter: a picture fed row by row through a plan of 1 to 16 stages, on memory that the caller lends.
// `start` and `start_numbers` make the state of a picture whose rows are counted and empty the queues; `start_open` and `start_open_numbers` do so for rows that come until `stop` is said.
// `row` and `drain` take a step, of bytes or of floats as the rows are; `read_out` shows a queue's entry. A run of one stage that was started by one of the starts named after origins takes its steps by `origin_row`
// and `origin_drain`: these also tell the row and the column that each pixel came from, and are lent a column more for each cell.
// The state goes in by value and comes back. `Lent` is the memory: the cells, a value and a position each, and the column records, a start and a length each; the cells lent are
// the shorter of the first two slices, the records the shorter of the other two. A refused call writes nothing.
#![tactic(auto)]

// meaning: memory/specs/Lent.antt `given`, `left`
pub use memory::Lent;
// promise: picture_state/specs/Step.antt `DrainStep`; of whole runs picture/specs/Runs.antt `PictureRan` and picture/specs/OpenRuns.antt `OpenRan`
pub use picture_step::drain;
// promise: picture_state/specs/ReadOut.antt `Shows`, by picture_step/specs/Shown.antt `shown`
pub use picture_step::read_out;
// promise: picture_state/specs/Step.antt `RowStep`; of whole runs picture/specs/Runs.antt `PictureRan` and picture/specs/OpenRuns.antt `OpenRan`
pub use picture_step::row;
// meaning: picture_origin_step/specs/Lent.antt `given`, `left`
pub use picture_origin_step::OriginLent;
// meaning: picture_origin_step/specs/Lent.antt `given_rows`, `left_rows`
pub use picture_origin_step::OriginRows;
// promise: picture_origin/specs/Step.antt `OriginDrainStep`
pub use picture_origin_step::origin_drain;
// promise: picture_origin/specs/Step.antt `OriginRowStep`
pub use picture_origin_step::origin_row;
// meaning: picture_start/specs/Start.antt `PictureStart`
pub use picture_start::Started;
// meaning: picture_start/specs/Stop.antt `PictureStop`
pub use picture_start::Stopping;
// promise: picture_start/specs/Start.antt `PictureStart`, by picture_origin/specs/Numbers.antt `open_origins_number`
pub use picture_origin::start_open_origins;
// promise: picture_start/specs/Start.antt `PictureStart`, by picture_origin/specs/Numbers.antt `open_origins_numbers_number`
pub use picture_origin::start_open_origins_numbers;
// promise: picture_start/specs/Start.antt `PictureStart`, by picture_origin/specs/Numbers.antt `origins_number`
pub use picture_origin::start_origins;
// promise: picture_start/specs/Start.antt `PictureStart`, by picture_origin/specs/Numbers.antt `origins_numbers_number`
pub use picture_origin::start_origins_numbers;
// promise: picture_start/specs/Start.antt `PictureStart`
pub use picture_start::start;
// promise: picture_start/specs/Start.antt `PictureStart`
pub use picture_start::start_numbers;
// promise: picture_start/specs/Start.antt `PictureStart`
pub use picture_start::start_open;
// promise: picture_start/specs/Start.antt `PictureStart`
pub use picture_start::start_open_numbers;
// promise: picture_start/specs/Stop.antt `PictureStop`
pub use picture_start::stop;
// meaning: picture_state/specs/Step.antt `row_said_of`
pub use picture_state::Answer;
// meaning: picture_state/specs/Numbers.antt `height_in`
pub use picture_state::Ending;
// meaning: picture_start/specs/Start.antt `first_state_of`, `open_state`
pub use picture_state::State;
// meaning: picture_state/specs/Step.antt `Advanced`
pub use picture_state::Stepped;
