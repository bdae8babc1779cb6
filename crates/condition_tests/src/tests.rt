mod claiming;
mod deciding;
mod selecting;
mod small_histories;
