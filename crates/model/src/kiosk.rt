// The two kiosks of a station.
#[derive(Clone, Copy)]
pub enum Kiosk {
    Zero,
    One,
}
